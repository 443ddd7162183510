// A value that clauses read and no code has. It is picked where it is told.
ghost use Rattle.std.specs.Prelude.{◌≡◌, List, [], IfOk};

use atomic_table::{Play, Seat, Table, TableRule};
use eleos_base::NoMemory;
use std::alloc::Global;
use std::collections::LinkedList;
use std::marker::{Brand, PhantomData};

/// The value that is picked, as a list of one.
pub trait Tells<T> {
    ghost tells: { List T };
}

impl<T> Tells<T> for Brand {
    ghost tells = { [] };
}

/// The rule of a table that keeps nothing.
pub(crate) struct Anything;

impl<T> TableRule<(), LinkedList<T>, ()> for Anything {
    ghost holds = { λ _ s. Unit {0} };

    ghost first = { λ _. [] };
}

struct Telling<N> {
    of: PhantomData<N>,
}

impl<T, N: Tells<T>> Play<(), LinkedList<T>> for Telling<N> {
    ghost then = { λ st m n m'. m'.0 ≡ N.tells };
}

/// It has no bytes. Clauses read the list of what was told.
pub(crate) type Told<T> = Seat<(), LinkedList<T>>;

/// Tells a value, by a look at a table of its own, which is let go.
pub(crate) fn tell<T, N: Tells<T>>(alloc: Global) -> Result<Told<T>, NoMemory>
    ensures { IfOk result (λ told. told.me.0 ≡ N.tells) }
{
    let Ok((table, mut seat)) = Table::<(), LinkedList<T>, (), Anything, Global>::of_words(
        alloc,
        &[0],
        &(),
    ) else {
        return Err(NoMemory);
    };
    table.shared.load::<Telling<N>>(&mut seat, 0);
    drop(table);
    Ok(seat)
}
