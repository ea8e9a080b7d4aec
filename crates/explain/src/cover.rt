//! Zones that would cover what is touched: lines to put in.

use crate::spot::Spot;
use crate::widen::in_numbers;
use lists::TextBuffer;
use program::{ObjectName, Zone, same_object};

impl Spot<'_, '_> {
    /// The first of the zones here that is of this object.
    fn zone_of(&self, object: ObjectName) -> Option<&Zone> {
        for zone in self.place.covering {
            if same_object(zone.object, object) {
                return Some(zone);
            }
        }
        None
    }

    /// A line that covers what is touched, with these ends where those of the old line do not do; false where the text cannot have it.
    fn push_with_ends(&self, touched: &Zone, new: &Zone, out: &mut TextBuffer) -> bool {
        let mut line = TextBuffer::new(self.trying.known.means.alloc);
        line.push_str(self.word);
        let old = self.zone_of(touched.object);
        self.push_zone_line(line, old, &[], touched, new, self.task, out)
    }

    /// A line that covers what is touched: with its own ends, or with numbers, where the line cannot name its registers and those lie in the object.
    pub fn push_cover_line(&self, touched: &Zone, out: &mut TextBuffer) {
        if self.push_with_ends(touched, touched, out) {
            return;
        }
        if let Some(numbers) = in_numbers(self.trying.known, touched) {
            let cells = i128::from(self.trying.known.scene.cells(numbers.object));
            if numbers.low.constant >= 0 && numbers.high.constant <= cells {
                self.push_with_ends(touched, &numbers, out);
            }
        }
    }
}
