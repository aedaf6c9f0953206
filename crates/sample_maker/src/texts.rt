//! The four texts of a sample.
ghost use Rattle.std.specs.Prelude.{◌≡◌, ◌≤◌, IfOk};
ghost use Rattle.sample_maker.specs.Samples.{bounds_text, reference_text, rules_text};
ghost use Rattle.sample_maker.specs.Samples.{submission_text};

use crate::NoMemory;
use crate::program::{Version, program};
use crate::sample_text::SampleText;
use std::alloc::Global;

/// The texts of a task.
#[derive(Drop)]
pub struct SampleTexts {
    pub bounds: SampleText,
    pub reference: SampleText,
    pub submission: SampleText,
    pub rules: SampleText,
}

/// The sample of a number. Its least correction costs as much as there are ones among the lowest
/// eight bits of the number.
pub fn sample(alloc: Global, number: u32) -> Result<SampleTexts, NoMemory>
    requires { number ≤ 65535 }
    ensures bounds { IfOk result (λ t. t.bounds ≡ bounds_text) }
    ensures reference { IfOk result (λ t. t.reference ≡ reference_text number) }
    ensures submission { IfOk result (λ t. t.submission ≡ submission_text number) }
    ensures rules { IfOk result (λ t. t.rules ≡ rules_text) }
{
    let bounds = b"width 9\nturns 1\ndepth 1\ncap 1\nentry f\nparam x int -8..7\n".to_vec(alloc)?;
    let reference = program(alloc, Version::Reference, number)?;
    let submission = program(alloc, Version::Submission, number)?;
    let rules = b"rule side: $a0 <= $a1 => $a0 < $a1\n".to_vec(alloc)?;
    Ok(SampleTexts {
        bounds: SampleText::from_vec(bounds),
        reference: SampleText::from_vec(reference),
        submission: SampleText::from_vec(submission),
        rules: SampleText::from_vec(rules),
    })
}
