// Values under numbers, lent.
ghost use Rattle.std.specs.Prelude.{◌≡◌, ◌<◌, ◌^◌, length};
ghost use Rattle.dx_instance.specs.Numbers.{value_of};

use dx_model::Value;
use std::marker::Model;

/// Values under numbers, lent in three parts, one after the other. A contract sees their list.
#[derive(Drop)]
pub(crate) struct Values<'a> {
    pub(crate) first: &'a [Value],
    pub(crate) second: &'a [Value],
    pub(crate) third: &'a [Value],
}

impl<'a> Model for Values<'a> {
    ghost use Rattle.std.specs.Prelude.{List, ◌++◌, ◌<◌, ◌^◌, length};
    ghost use Rattle.dx_model.specs.declared.values.Value.{Value as Cell};

    ghost Value = { List Cell };

    ghost view = { λ v. v.first.now ++ v.second.now ++ v.third.now };

    ghost invariant = { λ v. length (v.first.now ++ v.second.now ++ v.third.now) < 2 ^ 32 };
}

impl<'a> Values<'a> {
    /// How many values there are.
    #[inline(always)]
    pub(crate) fn len(&self) -> u64
        ensures len { result ≡ length self.now }
        ensures few { length self.now < 2 ^ 32 }
    {
        (self.first.len() + self.second.len() + self.third.len()) as u64
    }

    /// The value under a number.
    #[inline(always)]
    pub(crate) fn value(&self, number: u64) -> &'a Value
        requires { number < length self.now }
        ensures { result.now ≡ value_of self.now number }
    {
        let number = number as usize;
        let (first, second) = (self.first, self.second);
        if number < first.len() {
            return &first[number];
        }
        let rest = number - first.len();
        if rest < second.len() {
            &second[rest]
        } else {
            &self.third[rest - second.len()]
        }
    }
}
