// The recording calls as values, and what is answered to those that are accepted.
use filter::data::FilterData;
use layers::layer::PoppedLayer;
use layers::props::LayerProps;

#[derive(Clone, Copy)]
pub enum Call<D> {
    Reset {
        width: u16,
        height: u16,
    },
    Draw(D),
    Open {
        props: LayerProps,
        filter: Option<FilterData>,
    },
    Close,
}

#[derive(Clone, Copy, Debug, PartialEq, Eq)]
pub enum Answer {
    Reset,
    Drawn(u32),
    Entered(u32),
    Left(PoppedLayer),
}
