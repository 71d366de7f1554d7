//! What a seat learns from each step that it takes on the word.
ghost use Rattle.turn_lock.specs.Turns.{Takes, Commits, Gives, Looks, Learns};
ghost use Rattle.turn_lock.specs.Views.{halved, newcomer, joined, spent};

use crate::kept::Kept;
use crate::view::View;
use atomic_table::{Join, Play, Split};

// The word changes from an even number to the next odd one, or stays the same.
pub(crate) struct Take;

impl<T: Kept> Play<Option<T>, View<T::Entry, T::Origin>> for Take {
    ghost then = { Takes T.list T.origin };
}

// The word is raised by 2.
pub(crate) struct Commit;

impl<T: Kept> Play<Option<T>, View<T::Entry, T::Origin>> for Commit {
    ghost then = { Commits T.list };
}

// The word is lowered by 1.
pub(crate) struct Give;

impl<T, E, O> Play<Option<T>, View<E, O>> for Give {
    ghost then = { Gives };
}

// A load that shows the number of entries.
pub(crate) struct Look;

impl<T, E, O> Play<Option<T>, View<E, O>> for Look {
    ghost then = { Looks };
}

// A load, from which the seat learns that its pending list is a prefix of what it has seen.
pub(crate) struct Learn;

impl<T, E, O> Play<Option<T>, View<E, O>> for Learn {
    ghost then = { Learns };
}

// A new seat that has seen the same; each of the two has half of the share.
pub(crate) struct Cut;

impl<E, O> Split<View<E, O>> for Cut {
    ghost left = { halved };

    ghost right = { newcomer };
}

// One seat is joined into another.
pub(crate) struct Merge;

impl<E, O> Join<View<E, O>> for Merge {
    ghost both = { joined };

    ghost spent = { spent };
}
