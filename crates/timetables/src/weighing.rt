// The weights of a plan's places in seconds.
ghost use Rattle.std.specs.Prelude.{◌≡◌, ℕ, ◌<◌, ◌≤◌, length, slice_index_or};
ghost use Rattle.checks.specs.Tables.{blank};
ghost use Rattle.timetables.specs.Measures.{second_scale};
ghost use Rattle.timetables.specs.Timetable.{by_place};

use crate::count::Seconds;
use books::Book;
use checks::Arrangement;

// The seconds of each place's step, by place, and zero past the last place. A loop by number: made by `array::from_fn` the
// weights were tried, and what each is stayed open.
pub fn weights<B: Book>(book: &B, plan: &Arrangement) -> [Seconds; 256]
    ensures sized { length result ≡ 256 }
    ensures weighed { (v : ℕ) → v < plan.now.count → (by_place second_scale result v).count ≡ (B.Book.model book.now).seconds (slice_index_or plan.now.places v blank).step }
    ensures rest { (v : ℕ) → plan.now.count ≤ v → (by_place second_scale result v).count ≡ 0 }
{
    let mut weights = [Seconds { count: 0 }; 256];
    for v in 0..256 {
        weights[v] = Seconds {
            count: plan.place(v).map_or(0, |place| book.seconds(place.step)),
        };
    }
    weights
}
