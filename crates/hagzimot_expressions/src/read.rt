//! Expressions are read.
ghost use Rattle.std.specs.Prelude.{◌≡◌, length, IfOk, IfErr};
ghost use Rattle.hagzimot_expressions.specs.Mistakes.{IsMistakeAt};
ghost use Rattle.hagzimot_expressions.specs.Numbers.{NumbersFrom};
ghost use Rattle.hagzimot_expressions.specs.Paths.{SpellsPath};
ghost use Rattle.hagzimot_expressions.specs.declared.mistakes.Wrong.{Wrong};

use crate::lexemes::tokens;
use crate::mistakes::{ExpressionFault, Wrong, mistake_at};
use crate::parser::{MOST_LEVELS, Parser, alternatives};
use crate::paths::path_of;
use crate::tree::{Expression, Path, Span};
use std::alloc::Global;

/// Returns what an expression says. `not` binds closest, then `and`, then `or`. `Mistake`: the
/// first place at which the text is not an expression. `Memory`: an allocation was refused.
///
/// It ends at any text, in time in proportion to its length; at most 64 parentheses and nots are
/// nested, and there are at most 1000 conditions.
pub fn expression(alloc: Global, text: &str) -> Result<Expression, ExpressionFault>
    ensures { IfOk result (λ e. NumbersFrom 0 e.tree (length e.tests.items)) }
{
    let tokens = tokens(alloc, text.as_bytes())?;
    if tokens.is_empty() {
        let end = text.len();
        return Err(mistake_at(Span { start: end, end }, Wrong::Empty));
    }
    let mut parser = Parser {
        alloc,
        text,
        tokens: &tokens,
        at: 0,
        tests: Vec::new(alloc),
    };
    let tree = alternatives(&mut parser, MOST_LEVELS)?;
    parser.finish()?;
    Ok(Expression {
        tests: parser.tests,
        tree,
    })
}

/// Returns the path that a text spells, which is the whole text.
pub fn path(alloc: Global, text: &str) -> Result<Path, ExpressionFault>
    ensures path { IfOk result (λ path. SpellsPath text.now path.steps.items) }
    ensures refused { IfErr result
        (IsMistakeAt (record { start = 0; end = length text.now }) Wrong.NotPath) }
{
    let end = text.len();
    path_of(alloc, text, Span { start: 0, end })
}
