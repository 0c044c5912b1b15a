//! What readers take, and the operations on it.
use crate::front::Front;
use crate::list::{List, SharedSegment};
use left_right::Absorb;
use segment_blocks::Segment;
use std::alloc::AllocError;

/// A list with the history that its journal is.
#[derive(Drop)]
pub struct Published {
    pub list: List,
    pub front: Front,
}

/// A change of the list. The first one has the history once its batch is added.
#[derive(Drop)]
pub enum Operation {
    Add(SharedSegment, Front),
    Join(usize, SharedSegment),
}

impl Absorb<Operation> for Published {
    type State = ([Segment; 0], Front);

    ghost use Rattle.published_index.specs.Operations.{applied};

    ghost state = { λ published. (published.list, published.front) };

    ghost applied = { applied };

    fn absorb_first(
        &mut self,
        operation: &Operation,
        _other: &Published,
    ) -> Result<(), AllocError> {
        match operation {
            Operation::Add(segment, front) => {
                self.list.add(segment)?;
                self.front = front.again();
                Ok(())
            }
            Operation::Join(at, segment) => self.list.join(*at, segment),
        }
    }
}
