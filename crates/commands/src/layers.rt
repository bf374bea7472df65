// Layers by their words.
ghost use Rattle.std.specs.Prelude.{◌≡◌};
ghost use Rattle.commands.specs.Layers.{layer_named, Inverse};

use refusals::Layer;

const LAYERS: [Layer; 7] = [
    Layer::Reading,
    Layer::Checking,
    Layer::Record,
    Layer::Word,
    Layer::Showing,
    Layer::Judging,
    Layer::Report,
];

// The layer that a word names. No conversion of `Layer` itself, where it would be no plainer: only commands name layers by words.
pub fn layer_named(word: &[u8]) -> Option<Layer>
    ensures answer { result ≡ layer_named word.now }
    ensures inverse { Inverse word.now result }
{
    LAYERS
        .iter()
        .find(|layer| word == layer.name().as_bytes())
        .copied()
}
