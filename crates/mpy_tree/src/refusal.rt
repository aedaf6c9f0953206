//! Why a source is refused.
ghost use Rattle.std.specs.Prelude.{◌≡◌};
ghost use Rattle.mpy_tree.specs.Refusals.{cause_text};

/// The cause of a refusal.
#[derive(Clone, Copy, PartialEq, Eq, Debug, Drop)]
pub enum Cause {
    /// A byte that no source may have.
    Byte,
    /// A tab in the leading white space of a line.
    Tab,
    /// A column that isn't open.
    Indent,
    /// Something that is no token.
    Token,
    /// A line that the grammar doesn't have.
    Syntax,
    /// Lines that don't nest as blocks.
    Block,
    /// More of something than a source may have.
    Limit,
    /// A name that isn't there, or twice.
    Name,
    /// A call with a wrong number of arguments.
    Arity,
    /// An expression that breaks its typing rule, or a name of two types. It prints as `Type`.
    TypeFault,
    /// A name or a result without a type.
    Undetermined,
    /// A list that two names could share.
    Shared,
    /// No function is the entry.
    Entry,
    /// The results of the two entries have different types.
    ResultType,
    /// A metavariable or a place of a rule's right side that its left side hasn't.
    RuleMeta,
    /// A prime where a rule may have none.
    RulePrime,
    /// A metavariable or a rule's name that stands twice.
    RuleTwice,
    /// A number of the bounds outside its range.
    BoundRange,
    /// More rewritings and inputs than are tried.
    TooLarge,
    /// The reference ends on no input.
    EmptyReference,
    /// A source of more bytes than it may have.
    Long,
    /// A form that isn't built yet.
    NotYet,
}

impl Cause {
    /// The cause as it prints: its name, but `Type` for `TypeFault`.
    pub fn name(self) -> &'static str
        ensures { result.now ≡ cause_text self }
    {
        match self {
            Cause::Byte => "Byte",
            Cause::Tab => "Tab",
            Cause::Indent => "Indent",
            Cause::Token => "Token",
            Cause::Syntax => "Syntax",
            Cause::Block => "Block",
            Cause::Limit => "Limit",
            Cause::Name => "Name",
            Cause::Arity => "Arity",
            Cause::TypeFault => "Type",
            Cause::Undetermined => "Undetermined",
            Cause::Shared => "Shared",
            Cause::Entry => "Entry",
            Cause::ResultType => "ResultType",
            Cause::RuleMeta => "RuleMeta",
            Cause::RulePrime => "RulePrime",
            Cause::RuleTwice => "RuleTwice",
            Cause::BoundRange => "BoundRange",
            Cause::TooLarge => "TooLarge",
            Cause::EmptyReference => "EmptyReference",
            Cause::Long => "Long",
            Cause::NotYet => "NotYet",
        }
    }
}

/// The source that is refused.
#[derive(Clone, Copy, PartialEq, Eq, Debug, Drop)]
pub enum Source {
    Bounds,
    Reference,
    Submission,
    Rules,
    Cert,
    /// A value among the words of the command line, counted from 1.
    Word(u32),
}

/// A refusal: the source, the cause, and the line, counted from 1. `Long` has line 0.
#[derive(Clone, Copy, PartialEq, Eq, Debug, Drop)]
pub struct Refusal {
    pub source: Source,
    pub cause: Cause,
    pub line: u32,
}
