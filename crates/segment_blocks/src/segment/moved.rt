//! Segments of one batch, of which the place comes later.
ghost use Rattle.std.specs.Prelude.{◌≡◌, ◌+◌, ◌<◌, ◌^◌, length};

use crate::segment::Segment;
use explorer_model::archive::Classes;

impl Segment {
    /// The same segment at another place of the journal. It takes no memory: rows count games from the
    /// segment's first one.
    pub fn moved_to(self, first: u32) -> Segment
        requires { first + length self.span.batches < 2 ^ 32 }
        ensures { result ≡ record self { span = record self.span { first = first } } }
    {
        let Segment {
            games,
            batches,
            rows,
            ..
        } = self;
        Segment {
            first,
            games,
            batches,
            rows,
        }
    }

    /// What the tags say of the games of a segment of one batch, in the order of its texts.
    pub fn classes_of_one(&self) -> &[Classes]
        requires { length self.now.span.batches ≡ 1 }
        ensures { result.now ≡ self.now.classes }
    {
        self.batches[0].classes()
    }
}
