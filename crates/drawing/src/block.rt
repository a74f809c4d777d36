// A taken block, on its own words, and where its fields stand: "the references come first, then n - r plain words".
ghost use Rattle.std.specs.Prelude.{◌≡◌, ◌<◌, length};
ghost use Rattle.model.specs.View.{plain_words_in};
ghost use Rattle.model.specs.Standing.{shape_in};
ghost use Rattle.model.specs.declared.Refusal.TheVariants.{NoField};
ghost use Rattle.drawing.specs.Refusal.{Tested};
ghost use Rattle.drawing.specs.Look.{Fitting};

use model::{Refusal, Shape, WordOffset};

// A field's number counts from 0 among the references, or among the plain words.
#[derive(Clone, Copy, Debug, PartialEq, Eq)]
pub enum Field {
    Reference(u32),
    Plain(u32),
}

// Where the block begins in its arena, and its words, from there to its end. Nothing compares or prints one.
#[derive(Clone, Copy)]
pub struct Block<'a> {
    pub at: WordOffset,
    pub words: &'a [u32],
    ghost fitting: { Fitting words.now },
}

impl<'a> Block<'a> {
    ghost use Rattle.drawing.specs.Fields.{has_field, field_at};

    pub fn shape(&self) -> Shape
        ensures { result ≡ shape_in self.now.words.now }
    {
        words::fields::shape(self.words)
    }

    // Where a field stands among the words, and refusal 6 unless there is such a field.
    pub fn place(&self, field: Field) -> Result<usize, Refusal>
        ensures { Tested NoField (has_field self.now.words.now field) (λ o. (o ≡ field_at self.now.words.now field) × (o < length self.now.words.now)) result }
    {
        let Shape { n, r, .. } = self.shape();
        let (first, count, f) = match field {
            Field::Reference(f) => (0, r, f),
            Field::Plain(f) => (r, n - r, f),
        };
        if count <= f {
            return Err(Refusal::NoField);
        }
        Ok((1 + first + f) as usize)
    }

    // All plain words, as a part of the block.
    pub fn plain_words(&self) -> &'a [u32]
        ensures { result.now ≡ plain_words_in self.now.words.now }
    {
        let Shape { n, r, .. } = self.shape();
        let from = 1 + r as usize;
        let end = 1 + n as usize;
        &self.words[from..end]
    }
}
