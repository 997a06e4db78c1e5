//! What the lines of a unit are made of, and its pieces: names of functions, points and places.
ghost use Rattle.std.specs.Prelude.{◌≡◌, ◌++◌, Ok, IfOk, OnOk, option_map};
ghost use Rattle.tsa_place_model.specs.Units.{placed_in};
ghost use Rattle.tsa_trace.specs.EventLines.{byte_in, name_text, place_text, point_byte, point_text, points_in, sources_of};
ghost use Rattle.tsa_trace.specs.FunctionTexts.{points_or_none};
ghost use Rattle.tsa_trace.specs.Views.{spans_of};
ghost use Rattle.tsa_tree.specs.units.Shapes.{HaveTheirPoints, item_shapes};

use crate::functions::functions_of;
use crate::table::Function;
use itoa::Buffer;
use std::alloc::Global;
use std::marker::Model;
use tsa_base::{LineStarts, NoMemory};
use tsa_place::Places;
use tsa_sched::Site;
use tsa_tree::stmt::Point;
use tsa_types::Typed;

/// The text of a unit by its lines, its functions by their numbers, and its places. Contracts see what lines are made of.
pub struct Tracer<'a, 'p> {
    starts: LineStarts<'p>,
    functions: Vec<Function<'a>>,
    places: &'p Places,
}

impl Drop for Tracer<'_, '_> {
    /// Lets its parts go, in one call for all who let one go.
    fn drop(self) {
        let Tracer {
            starts: _,
            functions: _,
            places: _,
        } = self;
    }
}

impl<'a, 'p> Model for Tracer<'a, 'p> {
    ghost use Rattle.std.specs.Prelude.{map};
    ghost use Rattle.tsa_trace.specs.EventLines.{Sources};
    ghost use Rattle.tsa_trace.specs.Views.{text_of};

    ghost Value = { Sources };

    ghost view = { λ t. record { bytes = t.starts; functions = map text_of t.functions.items; layout = t.places.now } };
}

/// The byte at which a point of a body stands; 0 for one that isn't there.
fn byte_of(points: &[Point<'_>], point: u32) -> u32
    ensures { result ≡ byte_in (spans_of points.now) point }
{
    match points.get(point as usize) {
        Some(point) => point.span.from,
        None => 0,
    }
}

impl<'a, 'p> Tracer<'a, 'p> {
    /// What the lines of a typed unit are made of, with its places and the text from which it was read.
    pub fn new(
        alloc: Global,
        unit: &Typed<'a>,
        places: &'p Places,
        source: &'p [u8],
    ) -> Result<Tracer<'a, 'p>, NoMemory>
        requires points { HaveTheirPoints unit.now.unit.now.items.now }
        requires placed { placed_in (item_shapes unit.now.unit.now.items.now) ≡ Ok places.now }
        ensures { IfOk result (λ tracer. tracer ≡ sources_of source.now (item_shapes unit.now.unit.now.items.now)) }
    {
        let functions = functions_of(alloc, unit.unit().items)?;
        let starts = LineStarts::new(alloc, source)?;
        Ok(Tracer {
            starts,
            functions,
            places,
        })
    }

    /// The name of a function; empty for one that isn't there.
    fn name(&self, function: u32) -> &'a [u8]
        ensures { result.now ≡ name_text self.now function }
    {
        match self.functions.get(function as usize) {
            Some(function) => function.name,
            None => &[],
        }
    }

    /// The points of a function's body, where it has one.
    fn points(&self, function: u32) -> Option<&'a [Point<'a>]>
        ensures { points_or_none (option_map (λ points. spans_of points.now) result) ≡ points_in self.now function }
    {
        self.functions.get(function as usize)?.points
    }

    /// The byte at which a point stands; 0 for one that isn't there.
    fn byte(&self, site: Site) -> u32
        ensures { result ≡ point_byte self.now site }
    {
        match self.points(site.function) {
            Some(points) => byte_of(points, site.point),
            None => 0,
        }
    }

    /// Appends the name of a function.
    pub(crate) fn put_name(&self, out: &mut Vec<u8>, function: u32) -> Result<(), NoMemory>
        ensures { OnOk result (out.new.items ≡ out.old.items ++ name_text self.now function) }
    {
        out.extend_from_slice(self.name(function))?;
        Ok(())
    }

    /// Appends where a point stands: `L:C`.
    #[tactic(auto, unfolding(crate::specs::EventLines::point_text))]
    pub(crate) fn put_point(&self, out: &mut Vec<u8>, site: Site) -> Result<(), NoMemory>
        ensures { OnOk result (out.new.items ≡ out.old.items ++ point_text self.now site) }
    {
        let place = self.starts.place(self.byte(site));
        let mut digits = Buffer::new();
        out.extend_from_slice(digits.format(place.line).as_bytes())?;
        out.extend_from_slice(b":")?;
        out.extend_from_slice(digits.format(place.column).as_bytes())?;
        Ok(())
    }

    /// Appends the text of a place.
    pub(crate) fn put_place(&self, out: &mut Vec<u8>, place: u32) -> Result<(), NoMemory>
        ensures { OnOk result (out.new.items ≡ out.old.items ++ place_text self.now place) }
    {
        self.places.put_text(out, place)
    }
}
