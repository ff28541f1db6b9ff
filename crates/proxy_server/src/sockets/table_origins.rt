//! The origins of the lines of the operator's table.
ghost use Rattle.std.specs.Prelude.{min, length, IfOk};
ghost use Rattle.hx_allow.specs.declared.limits.TheConstants.{MOST_LINES};
ghost use Rattle.proxy_figures.specs.LineOrigins.{LinesHavePlacesOfTheirOrigins};
ghost use Rattle.proxy_server.specs.OriginsOfLines.{origins_of_lines};

use hx_allow::{MOST_LINES, Table};
use proxy_figures::{LineOrigins, Origins};
use std::alloc::{AllocError, Global};

/// The places of the origins of a table's lines, which are added where they are new. Its only error is out of memory.
pub(crate) fn place_origins(
    alloc: Global,
    table: &Table,
    origins: &mut Origins,
) -> Result<LineOrigins, AllocError>
    ensures { IfOk result (λ placed. LinesHavePlacesOfTheirOrigins
        (origins_of_lines table.now.lines (min (length table.now.lines) MOST_LINES))
        placed.places.items origins.new) }
{
    let mut placed = LineOrigins::new(alloc);
    let lines = table.lines().min(usize::from(MOST_LINES)) as u16;
    for line in 0..lines {
        placed.add(origins, table.origin_address(line + 1))?;
    }
    Ok(placed)
}
