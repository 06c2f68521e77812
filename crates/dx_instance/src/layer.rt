// Values in order that copies share.
ghost use Rattle.std.specs.Prelude.{◌≡◌, [], IfOk};
ghost use Rattle.dx_instance.specs.Numbers.{ValuesAscend};

use dx_model::Value;
use std::alloc::{AllocError, Global};
use std::marker::Model;
use std::rc::Rc;

// Values in order and their hints.
#[derive(Drop)]
struct Block {
    values: Vec<Value>,
    hints: Vec<u64>,
}

/// Values in order and their hints, in one block that copies share. A contract sees the list of the values.
#[derive(Drop)]
pub(crate) struct Layer {
    block: Option<Rc<Block>>,
}

impl Model for Layer {
    ghost use Rattle.std.specs.Prelude.{List};
    ghost use Rattle.dx_model.specs.declared.values.Value.{Value as Cell};
    ghost use Rattle.dx_instance.specs.Numbers.{ValuesAscend, values_if};

    ghost Value = { List Cell };

    ghost view = { λ l. values_if l.block (λ b. b.value.values.items) };

    ghost invariant = { λ l. ValuesAscend (values_if l.block (λ b. b.value.values.items)) };
}

impl Layer {
    /// No values. It takes no memory.
    pub(crate) fn empty() -> Layer
        ensures { result ≡ [] }
    {
        Layer { block: None }
    }

    /// These values, which are in order, with their hints.
    ///
    /// # Errors
    ///
    /// `AllocError` if there is no memory.
    pub(crate) fn new(
        alloc: Global,
        values: Vec<Value>,
        hints: Vec<u64>,
    ) -> Result<Layer, AllocError>
        requires { ValuesAscend values.items }
        ensures { IfOk result (λ l. l ≡ values.items) }
    {
        let block = Rc::new(alloc, Block { values, hints })?;
        Ok(Layer { block: Some(block) })
    }

    /// The values, lent.
    pub(crate) fn values(&self) -> &[Value]
        ensures values { result.now ≡ self.now }
        ensures ascend { ValuesAscend self.now }
    {
        match &self.block {
            Some(block) => &block.values,
            None => &[],
        }
    }

    /// Their hints, lent.
    pub(crate) fn hints(&self) -> &[u64] {
        match &self.block {
            Some(block) => &block.hints,
            None => &[],
        }
    }

    /// A copy, which shares the block. It takes no memory.
    ///
    /// # Errors
    ///
    /// `AllocError` if the block has too many owners to be counted.
    pub(crate) fn copy(&self) -> Result<Layer, AllocError>
        ensures { IfOk result (λ l. l ≡ self.now) }
    {
        match &self.block {
            Some(block) => Ok(Layer {
                block: Some(block.clone()?),
            }),
            None => Ok(Layer { block: None }),
        }
    }
}
