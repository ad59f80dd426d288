//! The map from the names of classes to their places.

ghost use Rattle.std.specs.Prelude.{◌≡◌, IfOk};
ghost use Rattle.perm_tree.specs.Resolves.{HasDistinctWords, TakesNames};

use crate::numbers::number;
use indexmap::IndexMap;
use perm_tree::errors::NoMemory;
use perm_tree::list::Name;
use perm_tree::program::Program;
use std::alloc::Global;

fn copied(alloc: Global, name: &Name) -> Result<Name, NoMemory>
    ensures { IfOk result (λ copy. copy ≡ name.now) }
{
    let bytes = name.as_slice().to_vec(alloc)?;
    Ok(Name::from_vec(bytes))
}

/// Takes the name of each class to its place.
pub fn class_map(alloc: Global, program: &Program) -> Result<IndexMap<Name, u32>, NoMemory>
    requires { HasDistinctWords program.now }
    ensures { IfOk result (λ m. TakesNames program.now m.entries) }
{
    let mut map = IndexMap::new(alloc);
    let names = program.names();
    let classes = program.classes();
    'classes: for at in 0..classes.len() {
        let place = number(at)?;
        let name = copied(alloc, &names[classes[at].name.name as usize])?;
        map.insert(name, place)?;
    }
    Ok(map)
}
