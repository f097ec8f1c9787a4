// The words of a node's operands.
ghost use Rattle.std.specs.Prelude.{◌≡◌, [], ◌∷◌};
ghost use Rattle.tam_world.specs.Worlds.{words_of};
ghost use Rattle.tam_world.specs.Effects.{one_listed, two_listed, three_listed};

use crate::World;

// The word of one operand.
pub(crate) fn one_word(world: &World, i: u32, a: u32) -> Option<u32>
    ensures value { one_listed result ≡ words_of world.now i (a ∷ []) }
{
    world.word_at(i, a)
}

// The words of two operands, where both have one.
pub(crate) fn two_words(world: &World, i: u32, a: u32, b: u32) -> Option<(u32, u32)>
    ensures value { two_listed result ≡ words_of world.now i (a ∷ b ∷ []) }
{
    let Some(u) = world.word_at(i, a) else {
        return None;
    };
    let Some(v) = world.word_at(i, b) else {
        return None;
    };
    Some((u, v))
}

// The words of three operands, where each has one.
pub(crate) fn three_words(world: &World, i: u32, a: u32, b: u32, c: u32) -> Option<(u32, u32, u32)>
    ensures value { three_listed result ≡ words_of world.now i (a ∷ b ∷ c ∷ []) }
{
    let Some(t) = world.word_at(i, a) else {
        return None;
    };
    let Some((u, v)) = two_words(world, i, b, c) else {
        return None;
    };
    Some((t, u, v))
}
