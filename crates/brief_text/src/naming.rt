// Values by their names.

ghost use Rattle.std.specs.Prelude.{◌≡◌, [], ◌∷◌, ◌++◌, map, None, is_some, IfOk, OnOk};
ghost use Rattle.std.specs.Map.{lookup};
ghost use Rattle.std.specs.Str.{bytes_eq};
ghost use Rattle.plan_core.specs.Building.{has_name};
ghost use Rattle.plan_core.specs.NameBytes.{name_bytes};

use crate::passed::{after, is_number};
use indexmap::IndexMap;
use plan_core::Name;
use std::alloc::{AllocError, Global};

/// Values by their names, in the order of the text.
#[derive(Drop)]
pub(crate) struct Named<T: Copy> {
    entries: IndexMap<Name, T>,
}

impl<T: Copy> Named<T> {
    ghost use Rattle.brief_text.specs.Standing.{entries_of};

    pub(crate) fn new(alloc: Global) -> Self
        ensures { entries_of result ≡ [] }
    {
        Named {
            entries: IndexMap::new(alloc),
        }
    }

    /// The value of this name.
    pub(crate) fn get(&self, name: &Name) -> Option<T>
        ensures { result ≡ lookup (bytes_eq (name_bytes name.now)) (entries_of self.now) }
    {
        self.entries.get(name).copied()
    }

    /// A further value, of a name that has none.
    pub(crate) fn add(&mut self, name: Name, value: T) -> Result<(), AllocError>
        requires { lookup (bytes_eq (name_bytes name)) (entries_of self.old) ≡ None }
        ensures { OnOk result (entries_of self.new ≡ entries_of self.old ++ (name_bytes name, value) ∷ []) }
    {
        self.entries.insert(name, value)?;
        Ok(())
    }

    /// The same value for each of these names. None has one by then.
    pub(crate) fn add_all(
        &mut self,
        alloc: Global,
        names: &[Name],
        value: T,
    ) -> Result<(), AllocError>
        ensures { OnOk result (entries_of self.new ≡
            entries_of self.old ++ map (λ name. (name, value)) (map name_bytes names.now)) }
    {
        for name in names {
            self.add_copied(alloc, name, value)?;
        }
        Ok(())
    }

    fn add_copied(&mut self, alloc: Global, name: &Name, value: T) -> Result<(), AllocError>
        ensures { OnOk result (entries_of self.new ≡ entries_of self.old ++ (name_bytes name.now, value) ∷ []) }
    {
        if self.get(name).is_some() {
            return Err(AllocError);
        }
        let name = copied(alloc, name)?;
        self.add(name, value)
    }

    /// Whether a text is one of these names, or one with `_` and a number after it.
    pub(crate) fn has_front_of(&self, text: &[u8]) -> bool {
        for name in self.entries.keys() {
            if is_front(name.as_str().as_bytes(), text) {
                return true;
            }
        }
        false
    }

    /// All names, in the order of the text.
    pub(crate) fn names(&self, alloc: Global) -> Result<Vec<Name>, AllocError> {
        let mut names = Vec::new(alloc);
        for name in self.entries.keys() {
            names.push(copied(alloc, name)?)?;
        }
        Ok(names)
    }
}

/// The same name, in memory of its own.
pub(crate) fn copied(alloc: Global, name: &Name) -> Result<Name, AllocError>
    ensures { IfOk result (λ it. name_bytes it ≡ name_bytes name.now) }
{
    spelled(alloc, name.as_str())
}

/// The name that this text spells. It has the form of a name by then.
pub(crate) fn spelled(alloc: Global, text: &str) -> Result<Name, AllocError>
    ensures { IfOk result (λ it. name_bytes it ≡ text.now) }
{
    match Name::new(alloc, text) {
        Ok(name) => Ok(name),
        Err(_) => Err(AllocError),
    }
}

// Whether a text is this name, or has `_` and a number after it.
fn is_front(name: &[u8], text: &[u8]) -> bool {
    if name == text {
        return true;
    }
    match after(name, text) {
        Some(number) => is_number(number),
        None => false,
    }
}
