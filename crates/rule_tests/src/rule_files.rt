//! Files of rules that are read, and files that are refused.

use choice_tree::{PExpr, Place, Rules};
use eml_reader::{RuleError, read_rules};
use mpy_tree::Cause;
use std::alloc::Global;
use std::test::Fail;

/// Files that are refused, each with its cause and line, by a separate model of the rules.
const REFUSED: [(&str, Cause, u32); 15] = [
    ("rule r: $a => \x01\n", Cause::Byte, 1),
    ("# none\nrule r: $x => 1\n", Cause::Token, 2),
    ("say 'first'\n", Cause::Syntax, 1),
    ("rule r: $n => 1\nsay 'a'\nsay 'b'\n", Cause::Syntax, 3),
    ("rule r cost: $n => 1\n", Cause::Syntax, 1),
    ("rule r cost 10: $n => 1\n", Cause::Limit, 1),
    (
        "rule r: $n => {1, 2, 3, 4, 5, 6, 7, 8} + {1, 2, 3, 4, 5, 6, 7, 8} {+, -} 1\n",
        Cause::Limit,
        1,
    ),
    ("rule r: $v = $v + 1 => $v = 1\n", Cause::RuleTwice, 1),
    ("rule r: $n => 1\nrule r: $n => 2\n", Cause::RuleTwice, 2),
    ("rule r: $a0 => $a1\n", Cause::RuleMeta, 1),
    ("rule r: return $a => $a\n", Cause::RuleMeta, 1),
    ("rule r: $a => $a' + 1\n", Cause::RulePrime, 1),
    ("rule r: $a + 1 => f($a)\n", Cause::Name, 1),
    ("rule r: $a + 1 => print($a)\n", Cause::Name, 1),
    ("rule r: $a + 1 => min($a)\n", Cause::Arity, 1),
];

/// The rules of a file, or the cause and the line for which it is refused.
pub(crate) fn read(alloc: Global, text: &str) -> Result<Result<Rules, (Cause, u32)>, Fail> {
    if text.len() > 65536 {
        return Err("a long text")?;
    }
    match read_rules(alloc, text.as_bytes()) {
        Ok(rules) => Ok(Ok(rules)),
        Err(RuleError::Fault { cause, line }) => Ok(Err((cause, line))),
        Err(RuleError::NoMemory) => Err("no memory")?,
    }
}

#[test]
fn each_cause_is_told(rt: HostRuntime) -> Result<(), Fail> {
    for (text, cause, line) in &REFUSED {
        let answer = read(rt.alloc(), *text)?;
        assert_eq!(rt; answer.err(), Some((*cause, *line)), "of {text:?}");
    }
    Ok(())
}

const READ: &str =
    "rule if cost 3: $v = $n => $v = {0, ?$n}\n\n# why\nsay 'from {old}'\nrule r: $a + 1 => 1\n";

#[test]
fn rules_have_what_their_lines_say(rt: HostRuntime) -> Result<(), Fail> {
    let Ok(rules) = read(rt.alloc(), READ)? else {
        return Err("a refusal")?;
    };
    assert!(rt; rules.items.len() == 2);
    let first = &rules.items[0];
    assert!(rt; first.line == 1 && first.cost == 3 && first.name.bytes() == b"if".as_slice());
    assert!(rt; matches!(first.left.place, Place::Assign(_)));
    assert!(rt; first.left.place == first.right.place);
    assert!(rt; matches!(first.right.term, PExpr::Set(_)));
    assert!(rt;
        first
            .say
            .iter()
            .any(|said| said.bytes() == b"from {old}".as_slice())
    );
    let second = &rules.items[1];
    assert!(rt; second.line == 5 && second.cost == 1 && second.say.is_none());
    assert!(rt; matches!(second.left.place, Place::Anywhere));
    Ok(())
}
