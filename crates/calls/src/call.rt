// The calls of a script.
ghost use Rattle.std.specs.Prelude.{◌≡◌};
ghost use Rattle.text.specs.Readers.{Reads, Told};
ghost use Rattle.calls.specs.declared.head.Verb.TheVariants as verb;
ghost use Rattle.calls.specs.Calls.{is_draw, room_of, surface_of};
ghost use Rattle.calls.specs.Heads.{SaysCall};

use crate::draw_line::{DrawLine, Kind};
use crate::head::Verb;
use filter::data::FilterData;
use geometry::tile::Tile;
use layers::props::LayerProps;
use parts::open::read_opening;
use parts::shapes::read_tile;
use refusal::Refusal;
use text::reason::Reason;
use text::words::Words;
use tiles::surface::Surface;

#[derive(Drop)]
pub enum Call<D> {
    Reset {
        width: u16,
        height: u16,
    },
    // The draw to push, or why there is no such draw.
    Draw(Result<D, Refusal>),
    Open {
        props: LayerProps,
        filter: Option<FilterData>,
    },
    Close,
    // The full walk, into a list of `room` places or of just enough.
    Walk {
        room: Option<u32>,
    },
    // The walk of one tile, into such a list.
    Tile {
        surface: Surface,
        tile: Tile,
        room: Option<u32>,
    },
    // A draw that the tile shows of the scene.
    Hit {
        tile: Tile,
    },
    Report,
}

impl<D> Call<D> {
    pub fn is_draw(&self) -> bool
        ensures { result ≡ is_draw self.now }
    {
        matches!(self, Call::Draw(_))
    }
}

// `WIDTH HEIGHT`
fn read_reset<D: DrawLine>(words: &mut Words<'_>) -> Result<Call<D>, Reason>
    ensures { Told (SaysCall D.Written verb.Reset) words.old result words.new }
{
    let (width, height) = words.pair()?;
    Ok(Call::Reset { width, height })
}

// The words of a draw
fn read_draw<D: DrawLine>(kind: Kind, words: &mut Words<'_>) -> Result<Call<D>, Reason>
    ensures { Told (SaysCall D.Written (verb.Draw kind)) words.old result words.new }
{
    Ok(Call::Draw(D::read(kind.word(), words)?))
}

// All parts of an opening
fn read_open<D: DrawLine>(words: &mut Words<'_>) -> Result<Call<D>, Reason>
    ensures { Told (SaysCall D.Written verb.Open) words.old result words.new }
{
    let (props, filter) = read_opening(words)?;
    Ok(Call::Open { props, filter })
}

// `[room N]`
fn read_room(words: &mut Words<'_>) -> Result<Option<u32>, Reason>
    ensures { Reads room_of words.old result words.new }
{
    words.number_after("room")
}

// `[room N]`
fn read_walk<D: DrawLine>(words: &mut Words<'_>) -> Result<Call<D>, Reason>
    ensures { Told (SaysCall D.Written verb.Walk) words.old result words.new }
{
    let room = read_room(words)?;
    Ok(Call::Walk { room })
}

// `scene`, or the number of a layer
fn read_surface(words: &mut Words<'_>) -> Result<Surface, Reason>
    ensures { Reads surface_of words.old result words.new }
{
    if words.take("scene") {
        return Ok(Surface::Scene);
    }
    let number = words.number().map_err(|reason| match reason {
        Reason::NumberTooLarge => reason,
        _ => Reason::UnknownSurface,
    })?;
    Ok(Surface::Layer(number))
}

// `scene COLUMN ROW [room N]`, or with the number of a layer
fn read_tile_walk<D: DrawLine>(words: &mut Words<'_>) -> Result<Call<D>, Reason>
    ensures { Told (SaysCall D.Written verb.Tile) words.old result words.new }
{
    let surface = read_surface(words)?;
    let tile = read_tile(words)?;
    let room = read_room(words)?;
    Ok(Call::Tile {
        surface,
        tile,
        room,
    })
}

// `COLUMN ROW`
fn read_hit<D: DrawLine>(words: &mut Words<'_>) -> Result<Call<D>, Reason>
    ensures { Told (SaysCall D.Written verb.Hit) words.old result words.new }
{
    let tile = read_tile(words)?;
    Ok(Call::Hit { tile })
}

// The call of a line, from the words after its verb.
pub(crate) fn read_call<D: DrawLine>(verb: Verb, words: &mut Words<'_>) -> Result<Call<D>, Reason>
    ensures { Told (SaysCall D.Written verb) words.old result words.new }
{
    match verb {
        Verb::Reset => read_reset(words),
        Verb::Draw(kind) => read_draw(kind, words),
        Verb::Open => read_open(words),
        Verb::Close => Ok(Call::Close),
        Verb::Walk => read_walk(words),
        Verb::Tile => read_tile_walk(words),
        Verb::Hit => read_hit(words),
        Verb::Report => Ok(Call::Report),
    }
}
