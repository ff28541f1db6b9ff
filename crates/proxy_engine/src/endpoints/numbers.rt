//! Numbers and places. A connection has a number from 1 on, by which happenings and effects name it, and the core its
//! exchange; it stands at a place from 0 on. Links have numbers from that of the first on.
ghost use Rattle.std.specs.Prelude.{◌≡◌, ◌<◌, ◌^◌, nat_lt, if◌then◌else◌, Some, None};
ghost use Rattle.proxy_engine.specs.ConnectionNumbers.{connection_number_of_place, place_of_connection_number};
ghost use Rattle.proxy_engine.specs.ConnectionNumbers.{link_number_of_place, link_place};
ghost use Rattle.proxy_engine.specs.ConnectionNumbers.{link_number_if_in_64_bits};

use std::marker::{Model, PhantomData};

/// Places are of connections.
#[derive(Clone, Copy)]
pub(crate) struct ConnectionPlaceKind;

/// Places are of links.
#[derive(Clone, Copy)]
pub(crate) struct LinkPlaceKind;

/// A place, from 0, among all ends of a kind that ever were. Contracts see the plain number.
#[derive(Clone, Copy)]
pub(crate) struct Place<K> {
    index: u64,
    kind: PhantomData<K>,
}

impl<K> Model for Place<K> {
    ghost use Rattle.std.specs.Prelude.{ℕ};

    ghost Value = { ℕ };

    ghost view = { λ p. p.index };

    ghost inverse = { λ n. record { index = n; kind = record {} } };
}

pub(crate) type ConnectionPlace = Place<ConnectionPlaceKind>;

pub(crate) type LinkPlace = Place<LinkPlaceKind>;

impl<K> Place<K> {
    /// The place at which a map has a key.
    pub(crate) fn at(index: u64) -> Place<K>
        ensures { result ≡ index }
    {
        Place {
            index,
            kind: PhantomData,
        }
    }

    /// Its key in a map.
    pub(crate) fn key(self) -> u64
        ensures { result ≡ self }
    {
        self.index
    }
}

impl Place<ConnectionPlaceKind> {
    /// The place of the connection with a number. No connection has the number 0.
    pub(crate) fn of_number(number: u64) -> ConnectionPlace
        ensures { result ≡ place_of_connection_number number }
    {
        Place::at(number.saturating_sub(1))
    }

    /// The number of the connection at this place.
    pub(crate) fn number(self) -> u64
        requires { connection_number_of_place self < 2 ^ 64 }
        ensures { result ≡ connection_number_of_place self }
    {
        connection_number_of_place(self.index)
    }
}

impl Place<LinkPlaceKind> {
    /// The place of the link with a number, where the first link has this one. No link has a lesser number.
    pub(crate) fn of_number(number: u64, first: u64) -> LinkPlace
        ensures { result ≡ link_place first number }
    {
        Place::at(number.saturating_sub(first))
    }

    /// The number of the link at this place, where the first link has this one, if there is one.
    pub(crate) fn checked_number(self, first: u64) -> Option<u64>
        ensures { result ≡ link_number_if_in_64_bits first self }
    {
        first.checked_add(self.index)
    }

    /// The number of the link at this place, where the first link has this one.
    pub(crate) fn number(self, first: u64) -> u64
        ensures { link_number_of_place first self < 2 ^ 64 → result ≡ link_number_of_place first self }
    {
        link_number_of_place(first, self.index)
    }
}

/// The number of the connection under a key of a map.
pub(crate) fn connection_number_of_place(place: u64) -> u64
    requires { connection_number_of_place place < 2 ^ 64 }
    ensures { result ≡ connection_number_of_place place }
{
    place + 1
}

/// The number of the next connection, behind so many, if one is left.
pub(crate) fn number_of_next_connection(count: u64) -> Option<u64>
    ensures { result
        ≡ (if nat_lt (connection_number_of_place count) (2 ^ 64) then Some (connection_number_of_place count)
        else None) }
{
    count.checked_add(1)
}

/// The number of the link under a key of a map, where the first link has this one.
pub(crate) fn link_number_of_place(first: u64, place: u64) -> u64
    ensures { link_number_of_place first place < 2 ^ 64 → result ≡ link_number_of_place first place }
{
    first.wrapping_add(place)
}
