//! What waits for lines that are still to come, where lines are taken from the last to the first.
ghost use Rattle.std.specs.Prelude.{◌≡◌, [], map, option_map, IfOk, OnOk};
ghost use Rattle.mpy_tree.specs.Syntax.{end, arm};
ghost use Rattle.mpy_tree.specs.View.{action_of, block, block_of, branch_of, statement_of, term_of};
ghost use Rattle.mpy_parser.specs.Piles.{waiting, heap, group_at, behind_group, deeper_body};
ghost use Rattle.mpy_parser.specs.Piles.{behind_deeper, body_at, behind_body, with_statement};
ghost use Rattle.mpy_parser.specs.Piles.{with_if, with_arm, with_else, with_header, with_line};
ghost use Rattle.mpy_parser.specs.Piles.{group_of, groups_of, heap_of};
ghost use Rattle.mpy_tree.specs.Syntax.{no_arms, no_block};
ghost use Rattle.mpy_parser.specs.Views.{opening_of, line_of};

use crate::NoMemory;
use crate::entries::Entry;
use crate::items::{Header, Item};
use crate::stacks::Stack;
use mpy_tree::{Act, Arm, Arms, Expr, Func, Stmt, Stmts};
use std::alloc::Global;

/// The statements of one column that no header has taken yet, and the arms before them, which go on
/// with an `if` that is still to come.
#[derive(Drop)]
pub(crate) struct Group {
    pub(crate) column: u32,
    pub(crate) body: Stack<Stmt>,
    pub(crate) arms: Stack<Arm>,
    pub(crate) last: Option<Stmts>,
}

/// What waits, the nearest on top, and the functions that are done.
#[derive(Drop)]
pub(crate) struct Pile {
    pub(crate) groups: Stack<Group>,
    pub(crate) made: Stack<Func>,
}

fn new_group(alloc: Global, column: u32) -> Group
    ensures { group_of result ≡ waiting column end no_arms no_block }
{
    Group {
        column,
        body: Stack::new(alloc),
        arms: Stack::new(alloc),
        last: None,
    }
}

// Takes the group of the column, which is empty if another is nearest.
fn take_group(alloc: Global, groups: &mut Stack<Group>, column: u32) -> Group
    ensures taken { group_of result ≡ group_at column (groups_of groups.old) }
    ensures left { groups_of groups.new ≡ behind_group column (groups_of groups.old) }
{
    let is_nearest = match groups.peek() {
        None => false,
        Some(group) => group.column == column,
    };
    if is_nearest {
        if let Some(group) = groups.pop() {
            return group;
        }
    }
    new_group(alloc, column)
}

fn body_from(body: Stack<Stmt>) -> Stmts
    ensures { block_of result ≡ block (map statement_of body) }
{
    Stmts {
        items: body.into_vec(),
    }
}

// Takes what waits deeper than the column.
fn take_deeper(alloc: Global, groups: &mut Stack<Group>, column: u32) -> Stmts
    ensures taken { block_of result ≡ deeper_body column (groups_of groups.old) }
    ensures left { groups_of groups.new ≡ behind_deeper column (groups_of groups.old) }
{
    let is_deeper = match groups.peek() {
        None => false,
        Some(group) => column < group.column,
    };
    if is_deeper {
        if let Some(group) = groups.pop() {
            return body_from(group.body);
        }
    }
    body_from(Stack::new(alloc))
}

// Takes the body of a header: the statement behind its colon, or what waits deeper.
fn take_body(
    alloc: Global,
    groups: &mut Stack<Group>,
    line: u32,
    column: u32,
    behind: Option<Act>,
) -> Result<Stmts, NoMemory>
    ensures taken { IfOk result
        (λ b. block_of b
        ≡ body_at column line (option_map action_of behind) (groups_of groups.old)) }
    ensures left { OnOk result
        (groups_of groups.new
        ≡ behind_body column (option_map action_of behind) (groups_of groups.old)) }
{
    match behind {
        None => Ok(take_deeper(alloc, groups, column)),
        Some(act) => {
            let mut body = Stack::new(alloc);
            body.push(Stmt { line, act })?;
            Ok(body_from(body))
        }
    }
}

// Puts a statement before those of its column.
fn put(alloc: Global, groups: &mut Stack<Group>, column: u32, stmt: Stmt) -> Result<(), NoMemory>
    ensures { OnOk result
        (groups_of groups.new ≡ with_statement column (statement_of stmt) (groups_of groups.old)) }
{
    let group = take_group(alloc, groups, column);
    let mut body = group.body;
    body.push(stmt)?;
    groups.push(Group {
        column,
        body,
        arms: Stack::new(alloc),
        last: None,
    })
}

// Puts an `if` before its arms, and all of it before the statements of its column.
fn put_if(
    alloc: Global,
    groups: &mut Stack<Group>,
    line: u32,
    column: u32,
    test: Expr,
    body: Stmts,
) -> Result<(), NoMemory>
    ensures { OnOk result
        (groups_of groups.new
        ≡ with_if column line (term_of test) (block_of body) (groups_of groups.old)) }
{
    let group = take_group(alloc, groups, column);
    let mut arms = group.arms;
    arms.push(Arm { line, test, body })?;
    let arms = Arms {
        items: arms.into_vec(),
    };
    let act = Act::If(arms, group.last);
    let mut statements = group.body;
    statements.push(Stmt { line, act })?;
    groups.push(Group {
        column,
        body: statements,
        arms: Stack::new(alloc),
        last: None,
    })
}

// Puts an `elif` before the arms of its column.
fn put_arm(alloc: Global, groups: &mut Stack<Group>, column: u32, arm: Arm) -> Result<(), NoMemory>
    ensures { OnOk result
        (groups_of groups.new ≡ with_arm column (branch_of arm) (groups_of groups.old)) }
{
    let group = take_group(alloc, groups, column);
    let mut arms = group.arms;
    arms.push(arm)?;
    groups.push(Group {
        column,
        body: group.body,
        arms,
        last: group.last,
    })
}

// Puts an `else` before the statements of its column.
fn put_else(
    alloc: Global,
    groups: &mut Stack<Group>,
    column: u32,
    body: Stmts,
) -> Result<(), NoMemory>
    ensures { OnOk result
        (groups_of groups.new ≡ with_else column (block_of body) (groups_of groups.old)) }
{
    let group = take_group(alloc, groups, column);
    groups.push(Group {
        column,
        body: group.body,
        arms: Stack::new(alloc),
        last: Some(body),
    })
}

impl Pile {
    pub(crate) fn new(alloc: Global) -> Pile
        ensures { heap_of result ≡ heap [] [] }
    {
        Pile {
            groups: Stack::new(alloc),
            made: Stack::new(alloc),
        }
    }

    fn add_header(
        &mut self,
        alloc: Global,
        line: u32,
        column: u32,
        header: Header,
        body: Stmts,
    ) -> Result<(), NoMemory>
        ensures { OnOk result
            (heap_of self.new
            ≡ with_header line column (opening_of header) (block_of body) (heap_of self.old)) }
    {
        let groups = &mut self.groups;
        match header {
            Header::Def(name, params) => self.made.push(Func {
                line,
                name,
                params,
                body,
            }),
            Header::If(test) => put_if(alloc, groups, line, column, test, body),
            Header::Elif(test) => put_arm(alloc, groups, column, Arm { line, test, body }),
            Header::Else => put_else(alloc, groups, column, body),
            Header::While(test) => {
                let act = Act::While(test, body);
                put(alloc, groups, column, Stmt { line, act })
            }
            Header::For(name, over) => {
                let act = Act::For(name, over, body);
                put(alloc, groups, column, Stmt { line, act })
            }
        }
    }

    /// Puts a line before what waits.
    pub(crate) fn add(&mut self, alloc: Global, entry: Entry) -> Result<(), NoMemory>
        ensures { OnOk result (heap_of self.new ≡ with_line (line_of entry) (heap_of self.old)) }
    {
        let line = entry.line;
        let column = entry.column;
        match entry.item {
            Item::Simple(act) => put(alloc, &mut self.groups, column, Stmt { line, act }),
            Item::Headed(header, behind) => {
                let (header, body) = take_body(alloc, &mut self.groups, line, column, behind).map(
                    |body| (header, body),
                )?;
                self.add_header(alloc, line, column, header, body)
            }
        }
    }
}
