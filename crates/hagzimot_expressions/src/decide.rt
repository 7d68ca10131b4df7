//! Whether an expression holds, by its conditions.
ghost use Rattle.std.specs.Prelude.{IfOk};
ghost use Rattle.hagzimot_expressions.specs.Meaning.{Decides};

use crate::tree::Tree;

/// A judge of single conditions.
pub trait Truths {
    ghost use Rattle.std.specs.Prelude.{ℕ, Bool, IfOk};

    /// The reason for which there is no answer.
    type Fault;

    /// Whether this may be the answer for the condition of a number.
    ghost says: { Self → ℕ → Bool → Type 0 };

    /// Returns whether the condition of a number holds.
    fn is_true(&self, number: usize) -> Result<bool, Self::Fault>
        ensures { IfOk result (says self.now number) };
}

/// Returns whether a tree holds. It is looked through from left to right, and no further than the
/// answer needs. A fault is that of the first condition that has no answer.
#[tactic(auto, unfolding(crate::specs::Meaning::Decides))]
pub fn decide<T: Truths>(tree: &Tree, truths: &T) -> Result<bool, T::Fault>
    ensures { IfOk result (Decides (T.says truths.now) tree.now) }
{
    match tree {
        Tree::Test(number) => truths.is_true(*number),
        Tree::Not(inner) => {
            if decide(&**inner, truths)? {
                Ok(false)
            } else {
                Ok(true)
            }
        }
        Tree::And(left, right) => {
            if decide(&**left, truths)? {
                decide(&**right, truths)
            } else {
                Ok(false)
            }
        }
        Tree::Or(left, right) => {
            if decide(&**left, truths)? {
                Ok(true)
            } else {
                decide(&**right, truths)
            }
        }
    }
}
