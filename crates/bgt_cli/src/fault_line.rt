//! The line that says why a map is not tiled.

ghost use Rattle.std.specs.Prelude.{◌≡◌, IfOk, string_bytes};
ghost use Rattle.fault_point.specs.declared.fault.Fault.TheVariants as fault;
ghost use Rattle.bgt_cli.specs.Explain.{IsFaultLine, point_line as point_line_of, side_word};

use fault_point::Fault;
use field_text::Printed;
use map_core::push_edge;
use rd_plane::{Edge, FracPt, NoMemory, Text};
use std::alloc::{AllocError, Global};

// Inside the area or outside.
fn side(inside: bool) -> &'static str
    ensures { result.now ≡ side_word inside }
{
    if inside { "in" } else { "out" }
}

// The line of a point.
fn point_line(alloc: Global, at: FracPt, parts: u32, inside: bool) -> Result<String, AllocError>
    ensures { IfOk result (λ s. string_bytes s ≡ point_line_of at parts inside) }
{
    let x_num = at.x_num;
    let x_den = at.x_den;
    let y_half = at.y_half;
    let side = side(inside);
    format!(in alloc; "POINT {x_num}/{x_den} {y_half}/2 {parts} {side}\n")
}

// The line of two edges. Each has at most 131 bytes.
fn crossing_line(alloc: Global, first: Edge, second: Edge) -> Result<Text, NoMemory>
    ensures { IfOk result (IsFaultLine (fault.Crossing first second)) }
{
    let mut line = Printed::<512>::new();
    line.push_bytes(b"CROSS ");
    push_edge(&mut line, first);
    line.push(b' ');
    push_edge(&mut line, second);
    line.push(b'\n');
    Text::from_slice(alloc, line.bytes())
}

/// The line of what is wrong with a map, in millimetres for a point and as in a reply for two edges.
pub fn fault_line(alloc: Global, fault: &Fault) -> Result<Text, NoMemory>
    ensures { IfOk result (IsFaultLine fault.now) }
{
    match fault {
        Fault::Crossing { first, second } => crossing_line(alloc, *first, *second),
        Fault::Point { at, parts, inside } => {
            let Ok(line) = point_line(alloc, *at, *parts, *inside) else {
                return Err(NoMemory);
            };
            Text::from_slice(alloc, line.as_bytes())
        }
    }
}
