//! The laws of the cipher, and worked examples of its definitions.

ghost use Rattle.std.specs.Prelude.{◌≡◌, [], ◌∷◌, length};
ghost use Rattle.ublock.specs.Cipher.{block_length, layout128, layout256, ublock128_128, ublock128_256, ublock256_256};
ghost use Rattle.ublock.specs.Examples.{examples, ExamplesHold};
ghost use Rattle.ublock.specs.Laws.{RoundUndone, CipherPermutes, VariantPermutes};
ghost use Rattle.ublock.specs.Tables.{SubstitutionUndone, LayoutsInvertible};

/// The two lengths of a block in bytes. S and its inverse undo each other. In the layout of each length, and in any other
/// whose byte permutations have inverses, the round and its inverse undo each other, and so do enciphering and deciphering;
/// so each variant permutes its blocks under every key.
pub fn block_lengths() -> [usize; 2]
    ensures value { result ≡ block_length layout128 ∷ block_length layout256 ∷ [] }
    ensures substitution_undone { SubstitutionUndone }
    ensures layouts_invertible { LayoutsInvertible }
    ensures round_undone { RoundUndone }
    ensures cipher_permutes { CipherPermutes }
    ensures variants_permute { VariantPermutes ublock128_128 × VariantPermutes ublock128_256 × VariantPermutes ublock256_256 }
{
    [16, 32]
}

/// How many worked examples of the definitions are proved: all of the list.
pub fn worked_examples() -> usize
    ensures count { result ≡ length examples }
    ensures hold { ExamplesHold }
{
    13
}
