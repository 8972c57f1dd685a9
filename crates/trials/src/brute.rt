// Figures straight from their definition: every path that ends before a horizon is followed back, instance by instance.
// It shares nothing with the search but the rows, so that the two can be compared.
use path::{Delay, Semantics};
use stage::LawfulRow;
use std::alloc::{AllocError, Global};
use std::cmp::Reverse;

// Several times as long as any route takes to repeat.
const HORIZON: u64 = 960;

#[derive(Clone, Copy)]
struct Instance {
    start: u64,
    stop: u64,
}

#[derive(Drop)]
struct Stage {
    rank: u8,
    instances: Vec<Instance>,
}

// A timed path: its instances, and when it begins and ends.
#[derive(Drop)]
pub struct Path {
    pub numbers: Vec<u64>,
    first: u64,
    last: u64,
    begin: u64,
    end: u64,
}

// A figure, with the path that has it.
#[derive(Clone, Copy)]
pub struct Found<'a> {
    pub delay: Delay,
    pub path: &'a Path,
}

impl Stage {
    // The stage's instances up to the first cycle that begins after the horizon.
    fn new(heap: Global, row: &LawfulRow) -> Result<Stage, AllocError> {
        let row = row.row();
        let cycle = u64::from(row.cycle);
        let mut instances = Vec::new(heap);
        for q in 0..HORIZON / cycle.max(1) + 2 {
            let base = q.saturating_mul(cycle);
            for (start, stop) in row
                .starts
                .iter()
                .zip(row.stops.iter())
                .take(row.count as usize)
            {
                instances.push(Instance {
                    start: base.saturating_add(u64::from(*start)),
                    stop: base.saturating_add(u64::from(*stop)),
                })?;
            }
        }
        Ok(Stage {
            rank: row.rank,
            instances,
        })
    }

    // Whether what an instance of this stage writes is there for one of the reader.
    fn goes_forward(&self, reader: &Stage, i: &Instance, j: &Instance) -> bool {
        i.start <= j.start && (i.stop <= j.start || reader.rank < self.rank)
    }

    // The instance that reaches instance `j` of the reader: it goes forward to it, and the next one does not.
    fn reaching(&self, reader: &Stage, j: u64) -> Option<u64> {
        let read = reader.instances.get(j as usize)?;
        self.instances
            .as_slice()
            .array_windows::<2>()
            .position(|[this, next]| {
                self.goes_forward(reader, this, read) && !self.goes_forward(reader, next, read)
            })
            .map(|i| i as u64)
    }
}

// The instances of the path that ends at instance `j` of the last stage, if there is one.
fn path_to(heap: Global, stages: &[Stage], j: u64) -> Result<Option<Vec<u64>>, AllocError> {
    let mut numbers = Vec::new(heap);
    let mut at = j;
    numbers.push(at)?;
    for [writer, reader] in stages.array_windows::<2>().rev() {
        // no `?`: no path is no fault
        let Some(i) = writer.reaching(reader, at) else {
            return Ok(None);
        };
        at = i;
        numbers.push(at)?;
    }
    numbers.reverse();
    Ok(Some(numbers))
}

// All paths that end with an instance that starts before the horizon, in the order of their ends.
pub fn paths_of(heap: Global, rows: &[LawfulRow]) -> Result<Vec<Path>, AllocError> {
    let mut stages = Vec::new(heap);
    for row in rows {
        stages.push(Stage::new(heap, row)?)?;
    }
    let mut paths = Vec::new(heap);
    let (Some(writer), Some(reader)) = (stages.first(), stages.last()) else {
        return Ok(paths);
    };
    for (last, end) in (0..).zip(&reader.instances) {
        if end.start >= HORIZON {
            break;
        }
        let Some(numbers) = path_to(heap, stages.as_slice(), last)? else {
            continue;
        };
        let first = numbers.first().copied().unwrap_or(last);
        if let Some(begin) = writer.instances.get(first as usize) {
            paths.push(Path {
                numbers,
                first,
                last,
                begin: begin.start,
                end: end.stop,
            })?;
        }
    }
    Ok(paths)
}

// Whether no other path from the same first instance ends sooner.
fn is_soonest(paths: &[Path], path: &Path) -> bool {
    paths.iter().all(|other| other.first != path.first || other.last >= path.last)
}

// A path with the largest first instance below that of the path.
fn before<'a>(paths: &'a [Path], path: &Path) -> Option<&'a Path> {
    paths
        .iter()
        .filter(|other| other.first < path.first)
        .max_by_key(|other| other.first)
}

// The path's delay, where it counts.
fn counted<'a>(paths: &'a [Path], path: &'a Path, semantics: Semantics) -> Option<Found<'a>> {
    let (begin, predecessor) = match semantics {
        Semantics::LF | Semantics::FF if !is_soonest(paths, path) => return None,
        Semantics::LL | Semantics::LF => (path.begin, None),
        Semantics::FL | Semantics::FF => {
            let before = before(paths, path)?;
            (before.begin, Some(before.first))
        }
    };
    let delay = path.end.saturating_sub(begin);
    Some(Found {
        delay: Delay { delay, predecessor },
        path,
    })
}

// The one with the larger delay, and of equal ones the one that ends first.
fn larger<'a>(best: Found<'a>, found: Found<'a>) -> Found<'a> {
    let key = |found: &Found<'_>| (found.delay.delay, Reverse(found.path.last));
    if key(&found) > key(&best) {
        found
    } else {
        best
    }
}

// The largest delay of the paths that count, and of those that have it the one that ends first.
pub fn figure(paths: &[Path], semantics: Semantics) -> Option<Found<'_>> {
    let mut best = None;
    for path in paths {
        if let Some(found) = counted(paths, path, semantics) {
            // no `map_or`, `reduce` or `max_by_key`: a closure over a figure that lends its path gets no proof
            best = Some(match best {
                Some(best) => larger(best, found),
                None => found,
            });
        }
    }
    best
}
