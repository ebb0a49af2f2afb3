// Owned texts and names.
ghost use Rattle.std.specs.Prelude.{◌≡◌, ◌∷◌, [], IfOk};

use leaf_model::{Names, Text};
use std::alloc::{AllocError, Global};

/// An owned copy. Err if memory runs out.
pub fn text(alloc: Global, name: &str) -> Result<Text, AllocError>
    ensures { IfOk result (λ text. text ≡ name.now) }
{
    Ok(Text::of(String::from_str(alloc, name)?))
}

/// A list of one name.
pub fn one_name(alloc: Global, name: &str) -> Result<Names, AllocError>
    ensures { IfOk result (λ names. names ≡ name.now ∷ []) }
{
    let mut names = Vec::new(alloc);
    names.push(text(alloc, name)?)?;
    Ok(Names::of(names))
}
