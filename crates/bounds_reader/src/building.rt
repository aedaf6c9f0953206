//! Bounds made of what a file says.
ghost use Rattle.std.specs.Prelude.{◌≡◌, ◌≤◌, map, None, option_map, IfOk};
ghost use Rattle.bounds_reader.specs.Forms.{form_of};
ghost use Rattle.bounds_reader.specs.Files.{Says, SayLimits, SayPrints, limit_fault, range_fault};
ghost use Rattle.bounds_reader.specs.Views.{form_view, param_lines, file_view, HasLengths};
ghost use Rattle.bounds_reader.specs.Views.{HaveLengths, AreWithin, MayCompare, number_line};

use crate::NoMemory;
use crate::bounds::Bounds;
use crate::file::{File, NumberLine, ParamLine};
use crate::items::{Form, Named};
use crate::params::{Param, Params};
use mpy_tree::Limits;
use std::alloc::Global;

// The parameter of a form whose lengths aren't below 0.
fn param_from(form: Form) -> Param
    requires { HasLengths (form_view form) }
    ensures { form_of result ≡ form_view form }
{
    match form {
        Form::Int { low, high } => Param::Int { low, high },
        Form::Bool => Param::Bool,
        Form::List {
            least,
            most,
            low,
            high,
        } => Param::List {
            least: least.unsigned_abs(),
            most: most.unsigned_abs(),
            low,
            high,
        },
        Form::Text {
            least,
            most,
            alphabet,
        } => Param::Text {
            least: least.unsigned_abs(),
            most: most.unsigned_abs(),
            alphabet,
        },
    }
}

fn params_from(alloc: Global, lines: Vec<ParamLine>) -> Result<Vec<Param>, NoMemory>
    requires { HaveLengths (param_lines lines.items) }
    ensures { IfOk result (λ v. map form_of v.items
        ≡ map (λ p. p.value.form) (param_lines lines.items)) }
{
    let mut params = Vec::new(alloc);
    for line in lines {
        let ParamLine { param, .. } = line;
        let Named { form, .. } = param;
        params.push(param_from(form))?;
    }
    Ok(params)
}

// How many printed values are kept.
fn prints_from(compared: &Option<NumberLine>) -> u32
    requires { MayCompare (option_map number_line compared.now) }
    ensures says { SayPrints (option_map number_line compared.now) result }
    ensures most { result ≤ 8 }
{
    match compared {
        None => 0,
        Some(n) => n.number.unsigned_abs(),
    }
}

fn limits_from(file: &File) -> Limits
    requires { AreWithin (file_view file.now) }
    ensures { SayLimits (file_view file.now) result }
{
    Limits {
        width: file.width.number.unsigned_abs(),
        turns: file.turns.number.unsigned_abs(),
        depth: file.depth.number.unsigned_abs(),
        cap: file.cap.number.unsigned_abs(),
        prints: prints_from(&file.compared),
    }
}

/// The bounds that a file says.
pub(crate) fn bounds_from(alloc: Global, file: File) -> Result<Bounds, NoMemory>
    requires limits { limit_fault (file_view file) ≡ None }
    requires ranges { range_fault (file_view file) ≡ None }
    ensures { IfOk result (Says (file_view file)) }
{
    let limits = limits_from(&file);
    let File { entry, params, .. } = file;
    let params = Params::from_vec(params_from(alloc, params)?);
    Ok(Bounds {
        limits,
        entry: entry.name,
        entry_line: entry.line,
        params,
    })
}
