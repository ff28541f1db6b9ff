//! Where the origin of a line of the operator's table stands among the origins.
ghost use Rattle.std.specs.Prelude.{◌≡◌, ◌∷◌, ◌++◌, List, Option, [], IfOk, OnErr, OnOk};
ghost use Rattle.std.specs.declared.net.socket_addr.SocketAddrV4.{SocketAddrV4};
ghost use Rattle.proxy_figures.specs.OriginsModel.{OriginsModel};
ghost use Rattle.proxy_figures.specs.LineOrigins.{LinesHavePlacesOfTheirOrigins, NextLineHasPlaceOfItsOrigin};
ghost use Rattle.proxy_figures.specs.LineOrigins.{place_of_line};

use crate::origins::Origins;
use std::alloc::{AllocError, Global};
use std::net::SocketAddrV4;

/// The places of the origins of lines, in the order of the lines.
#[derive(Drop)]
pub struct LineOrigins {
    places: Vec<Option<usize>>,
}

/// The place of the origin of a line, which is added where it is new; a line that denies has none.
fn place_of(
    origins: &mut Origins,
    address: Option<SocketAddrV4>,
) -> Result<Option<usize>, AllocError>
    ensures { IfOk result (λ place. NextLineHasPlaceOfItsOrigin address place origins.old origins.new) }
{
    match address {
        Some(address) => Ok(Some(origins.place(address)?)),
        None => Ok(None),
    }
}

impl LineOrigins {
    /// Those of no line.
    pub fn new(alloc: Global) -> LineOrigins
        ensures empty { result.places.items ≡ [] }
        ensures placed { (known : OriginsModel) → LinesHavePlacesOfTheirOrigins [] result.places.items known }
    {
        LineOrigins {
            places: Vec::new(alloc),
        }
    }

    /// Takes the next line, whose origin has this address; one that denies has none. After an `Err`, which is out of
    /// memory, it knows no more lines than before.
    pub fn add(
        &mut self,
        origins: &mut Origins,
        address: Option<SocketAddrV4>,
    ) -> Result<(), AllocError>
        ensures placed { OnOk result ((lines : List (Option SocketAddrV4))
            → LinesHavePlacesOfTheirOrigins lines self.old.places.items origins.old
            → LinesHavePlacesOfTheirOrigins (lines ++ address ∷ []) self.new.places.items origins.new) }
        ensures err { OnErr result (self.new.places.items ≡ self.old.places.items) }
    {
        let place = place_of(origins, address)?;
        self.places.push(place)?;
        Ok(())
    }

    /// The place of the origin of a line, counted from 1. There is none where no line is asked for, there is no such
    /// line, or it denies.
    pub fn place(&self, line: Option<u16>) -> Option<usize>
        ensures { result ≡ place_of_line self.now.places.items line }
    {
        let at = usize::from(line?).checked_sub(1)?;
        match self.places.get(at) {
            Some(place) => *place,
            None => None,
        }
    }
}
