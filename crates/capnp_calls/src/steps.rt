//! The steps with which paths begin.
ghost use Rattle.std.specs.Prelude.{◌≡◌, ◌<◌, IfSome, option_map, length, map};
ghost use Rattle.capnp_calls.specs.CallViews.{step_view};
ghost use Rattle.capnp_calls.specs.Roots.{starts_with_name, BeginsWith};
ghost use Rattle.capnp_calls.specs.Steps.{BeginsWithIndex};

use crate::Step;

/// Returns the name at the beginning of a path, and the later steps; `None` if the path doesn't
/// begin with a name.
pub fn first_name(path: &[Step]) -> Option<(&str, &[Step])>
    ensures split { BeginsWith (map step_view path.now)
        (option_map (λ p. (p.0.now, map step_view p.1.now)) result) }
    ensures shorter { IfSome result (λ p. length p.1.now < length path.now) }
{
    match path {
        [Step::Name(name), rest @ ..] => Some((name.as_str(), rest)),
        [Step::Index(_), ..] => None,
        [] => None,
    }
}

/// Returns whether a path begins with a name.
pub fn begins_with_name(path: &[Step]) -> bool
    ensures { result ≡ starts_with_name (map step_view path.now) }
{
    first_name(path).is_some()
}

/// Returns the index at the beginning of a path, and the later steps; `None` if the path doesn't
/// begin with an index.
pub fn first_index(path: &[Step]) -> Option<(u32, &[Step])>
    ensures split { BeginsWithIndex (map step_view path.now)
        (option_map (λ p. (p.0, map step_view p.1.now)) result) }
    ensures shorter { IfSome result (λ p. length p.1.now < length path.now) }
{
    match path {
        [Step::Index(index), rest @ ..] => Some((*index, rest)),
        [Step::Name(_), ..] => None,
        [] => None,
    }
}
