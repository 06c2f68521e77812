// Tuples of texts, one after the other.
ghost use Rattle.std.specs.Prelude.{◌≡◌, ◌<◌, ◌*◌, [], length, slice_index_or};
ghost use Rattle.dx_model.specs.Tuples.{in_tuples};

use dx_base::Text;
use std::marker::Model;

/// Tuples of one width. A contract sees the list of the tuples, each the list of its texts.
#[derive(Drop)]
pub struct Tuples {
    width: usize,
    count: usize,
    texts: Vec<Text>,
}

impl Model for Tuples {
    ghost use Rattle.std.specs.Prelude.{◌≡◌, ◌*◌, ℕ, List, length};
    ghost use Rattle.dx_model.specs.Tuples.{in_tuples};

    ghost Value = { List (List (List ℕ)) };

    ghost view = { λ t. in_tuples t.count t.width t.texts.items };

    ghost invariant = { λ t. length t.texts.items ≡ t.count * t.width };
}

impl Tuples {
    /// The tuples that have these texts, tuple by tuple.
    pub fn of_texts(width: usize, count: usize, texts: Vec<Text>) -> Tuples
        requires { length texts.items ≡ count * width }
        ensures { result ≡ in_tuples count width texts.items }
    {
        Tuples {
            width,
            count,
            texts,
        }
    }

    /// How many tuples there are.
    pub fn len(&self) -> usize
        ensures { result ≡ length self.now }
    {
        self.count
    }

    /// The texts of a tuple, lent.
    pub fn tuple(&self, place: usize) -> &[Text]
        requires { place < length self.now }
        ensures { result.now ≡ slice_index_or self.now place [] }
    {
        let start = place * self.width;
        &self.texts[start..start + self.width]
    }
}
