// Blend modes.
ghost use Rattle.text.specs.Readers.{Reads};
ghost use Rattle.parts.specs.Shapes.{mode_of};

use draws::blend::BlendMode;
use text::reason::Reason;
use text::words::Words;

// `[mode MIX COMPOSE]`
pub fn read_mode(words: &mut Words<'_>) -> Result<Option<BlendMode>, Reason>
    ensures { Reads mode_of words.old result words.new }
{
    if !words.take("mode") {
        return Ok(None);
    }
    let (mix, compose) = words.pair()?;
    Ok(Some(BlendMode { mix, compose }))
}
