// A recording as a tile shows it.
ghost use Rattle.std.specs.Prelude.{◌≡◌, ◌+◌, ◌-◌, ◌^◌, ◌<◌, ◌≤◌, true, false, length, nat_le};
ghost use Rattle.refusal.specs.Refusals.{Answers};
ghost use Rattle.record.specs.Table.{held};
ghost use Rattle.tiles.specs.Tally.{begun, Added};
ghost use Rattle.tiles.specs.Tile.{is_surface, tile_fits, surface_questions};
ghost use Rattle.tiles.specs.TileSteps.{picked, Passed, Sifted};
ghost use Rattle.tiles.specs.View.{seen, shows, shown};
ghost use Rattle.walk.specs.Walk.{room, starts};

use crate::showing::{Showing, shows};
use crate::surface::Surface;
use crate::tally::Tally;
use draws::drawable::Drawable;
use draws::strip::Strip;
use geometry::tile::Tile;
use layers::node::Node;
use record::account::MAX_LAYERS;
use record::recorder::CommandRecorder;
use refusal::Refusal;
use walk::full::{entry_count, next_of};
use walk::listed::Listed;

// The last column, and the last row.
const LAST_TILE: u16 = 16_382;

#[derive(Drop)]
pub(crate) struct View<'a, D> {
    pub(crate) recorder: &'a CommandRecorder,
    pub(crate) draws: &'a [D],
    pub(crate) strips: &'a [Strip],
    pub(crate) tile: Tile,
}

// Whether the tile's column and row are at most 16,382.
fn in_range(tile: Tile) -> bool
    ensures { result ≡ tile_fits tile }
{
    tile.x <= LAST_TILE && tile.y <= LAST_TILE
}

// Passes over the owner's nodes from the first on, and over the layers that they hold, and answers the nodes after them.
// `depth` is how many layers further in it may go. A recursion over the plain table, as the rules have it.
fn pass_layer(nodes: &[Node], owner: Option<u32>, depth: u32) -> &[Node]
    requires { held nodes.now ≤ depth }
    ensures passed { Passed owner nodes.now result.now }
    ensures stopped { starts owner result.now ≡ false }
{
    let mut rest = nodes;
    while let Some((node, later)) = next_of(rest, owner) {
        rest = later;
        if let Some(layer) = node.layer {
            rest = pass_layer(rest, Some(layer), depth - 1);
        }
    }
    rest
}

impl<D: Drawable> View<'_, D> {
    // What is asked before anything is listed.
    pub(crate) fn ask(&self, surface: Surface) -> Result<(), Refusal>
        ensures { Answers (surface_questions surface self.now.tile self.now.recorder.now (length self.now.draws.now)) result (λ _. Unit {0}) (Unit {0}) }
    {
        if self.recorder.has_layers() {
            return Err(Refusal::LayerOpen);
        }
        if !surface.is_recorded(self.recorder.layers()) {
            return Err(Refusal::NoSuchSurface);
        }
        if !in_range(self.tile) {
            return Err(Refusal::TileOutOfRange);
        }
        if self.draws.len() < self.recorder.draw_count() as usize {
            return Err(Refusal::DrawsMissing);
        }
        Ok(())
    }

    // Whether the box of draw `number` covers the tile.
    fn shows_draw(&self, number: u32) -> bool
        ensures { result ≡ seen D.box_of self.now number }
    {
        let (strips, tile) = (self.strips, self.tile);
        self.draws
            .get(number as usize)
            .and_then(|draw| draw.bbox(strips))
            .is_some_and(|bbox| bbox.covers(tile))
    }

    // A number that is not recorded shows nothing.
    fn shows_layer(&self, number: u32) -> Showing
        ensures { result ≡ shows self.now number }
    {
        let tile = self.tile;
        self.recorder
            .layers()
            .get(number as usize)
            .map_or(Showing::Hidden, |layer| shows(layer, tile))
    }

    // Lists those of the node's own draws that the tile shows.
    fn list_draws(&self, node: &Node, list: &mut Tally<'_>)
        requires { list.old.count + (node.now.end - node.now.start) < 2 ^ 32 }
        ensures { Added (picked (seen D.box_of self.now) node.now.start (node.now.end - node.now.start)) list.old list.new }
    {
        for number in node.start..node.end {
            if self.shows_draw(number) {
                list.push(Listed::Draw(number));
            }
        }
    }

    // Lists what the tile shows of the owner's nodes from the first on, and answers the nodes after them.
    // `depth` is how many layers further in the walk may go. A recursion over the plain table, as the rules have it.
    fn list_layer<'n>(
        &self,
        nodes: &'n [Node],
        owner: Option<u32>,
        depth: u32,
        list: &mut Tally<'_>,
    ) -> &'n [Node]
        requires places { list.old.count + room nodes.now < 2 ^ 32 }
        requires deep { held nodes.now ≤ depth }
        ensures sifted { Sifted (seen D.box_of self.now) (shows self.now) owner nodes.now list.old result.now list.new }
        ensures stopped { starts owner result.now ≡ false }
    {
        let mut rest = nodes;
        while let Some((node, later)) = next_of(rest, owner) {
            self.list_draws(node, list);
            rest = later;
            if let Some(layer) = node.layer {
                match self.shows_layer(layer) {
                    Showing::Through => {
                        list.push(Listed::Enter(layer));
                        rest = self.list_layer(rest, Some(layer), depth - 1, list);
                        list.push(Listed::Leave(layer));
                    }
                    Showing::Placed => {
                        list.push(Listed::Filter(layer));
                        rest = pass_layer(rest, Some(layer), depth - 1);
                    }
                    Showing::Hidden => {
                        rest = pass_layer(rest, Some(layer), depth - 1);
                    }
                }
            }
        }
        rest
    }

    // Lists what the tile shows of the surface, from the first place of `out` on.
    pub(crate) fn list_surface<'o>(&self, surface: Surface, out: &'o mut [Listed]) -> Tally<'o>
        requires { is_surface surface self.now.recorder.now.tree.layers ≡ true }
        ensures { Added (shown D.box_of self.now surface) (begun out.entry) result }
    {
        let nodes = surface.nodes(self.recorder.nodes());
        let mut list = Tally::new(out);
        self.list_layer(nodes, surface.owner(), MAX_LAYERS, &mut list);
        list
    }

    // Whether that many places hold every entry. They are counted only where a full walk's would not fit.
    pub(crate) fn has_places(&self, surface: Surface, places: usize) -> bool
        requires { is_surface surface self.now.recorder.now.tree.layers ≡ true }
        ensures { result ≡ nat_le (length (shown D.box_of self.now surface)) places }
    {
        if entry_count(self.recorder) <= places {
            return true;
        }
        self.list_surface(surface, &mut []).count <= places
    }
}
