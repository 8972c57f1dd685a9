// The search for the largest delay, block by block.
ghost use Rattle.std.specs.Prelude.{◌≡◌, ◌+◌, ◌^◌, ◌<◌, ◌≤◌, None, Some, IfSome};
ghost use Rattle.stage.specs.declared.period.TheConstants.{MAX_MACRO_PERIOD};
ghost use Rattle.stage.specs.Stages.{start_of, stop_of};
ghost use Rattle.path.specs.Figures.{Figure, shown_predecessor};
ghost use Rattle.path.specs.Periods.{Common, instances_in};
ghost use Rattle.path.specs.Route.{EndsPath, OpensBlock, first_along, last_along, stages_along, steps_along};
ghost use Rattle.path.specs.Steps.{end_in, first_block, next_block, origin_in, witness_to};

use crate::route::Route;
use crate::semantics::Semantics;

// A path: its delay, the instance of the first stage from which that is counted, and its last instance.
#[derive(Clone, Copy)]
pub(crate) struct Longest {
    pub(crate) delay: u64,
    pub(crate) origin: u64,
    pub(crate) last: u64,
}

// The paths that begin at one instance of the first stage. Their last instances are `near` up to the one before `far`.
#[derive(Clone, Copy)]
struct Block<'a> {
    route: Route<'a>,
    begin: u64,
    // where the paths of the block before this one begin
    before: Option<u64>,
    near: u64,
    far: u64,
    ghost near_is: { near ≡ (steps_along route).ahead begin },
    ghost far_is: { far ≡ (steps_along route).ahead (begin + 1) },
    ghost opens: { near < far },
    ghost early: { start_of (last_along route) far < 2 ^ 40 },
}

impl<'a> Block<'a> {
    ghost use Rattle.path.specs.Block.{LongestOf};

    // The block whose paths end first at `near`.
    fn opening(route: Route<'a>, near: u64, before: Option<u64>) -> Block<'a>
        requires { OpensBlock route near }
        ensures route { result.route ≡ route.entry }
        ensures begin { result.begin + 1 ≡ (steps_along route.entry).back (near + 1) }
        ensures before { result.before ≡ before }
    {
        let begin = route.back(near);
        let far = route.ahead(begin + 1);
        Block {
            route,
            begin,
            before,
            near,
            far,
        }
    }

    fn first(route: Route<'a>) -> Block<'a>
        requires { start_of (first_along route) (first_block (steps_along route) + 1) < 2 ^ 36 }
        ensures route { result.route ≡ route.entry }
        ensures begin { result.begin ≡ first_block (steps_along route.entry) }
        ensures before { result.before ≡ None }
    {
        Block::opening(route, route.ahead(0), None)
    }

    fn next(&self) -> Block<'a>
        requires { start_of (first_along self.now.route) (next_block (steps_along self.now.route) self.now.begin + 1) < 2 ^ 36 }
        ensures route { result.route ≡ self.now.route }
        ensures begin { result.begin ≡ next_block (steps_along self.now.route) self.now.begin }
        ensures before { result.before ≡ Some self.now.begin }
    {
        Block::opening(self.route, self.far, Some(self.begin))
    }

    // Where a block begins that is like this one, a span later.
    fn repeats_at(&self, span: u32) -> u64
        requires { self.now.begin < 2 ^ 40 }
        ensures { result ≡ self.now.begin + instances_in span (first_along self.now.route) }
    {
        self.begin + self.route.instances_in(span)
    }

    // The longest path that counts, where any does.
    fn longest(&self, semantics: Semantics) -> Option<Longest>
        requires { IfSome (origin_in semantics self.now.begin self.now.before) (λ o. start_of (first_along self.now.route) o ≤ stop_of (last_along self.now.route) (end_in semantics self.now.near self.now.far)) }
        ensures { LongestOf semantics self.now result }
    {
        let origin = semantics.origin(self.begin, self.before)?;
        let last = semantics.end(self.near, self.far);
        let start = self.route.first().start(origin).unwrap();
        let stop = self.route.last().stop(last).unwrap();
        Some(Longest {
            delay: stop - start,
            origin,
            last,
        })
    }
}

// The longest path that counts, of those with the largest delay the one that ends first.
pub(crate) fn longest_path(route: Route, semantics: Semantics, span: u32) -> Longest
    requires common { Common span (stages_along route) }
    requires short { span ≤ MAX_MACRO_PERIOD }
    ensures figure { Figure semantics (stages_along route.entry) result.delay (shown_predecessor semantics result.origin) (witness_to (stages_along route.entry) result.last) }
    ensures end { EndsPath route.entry result.last }
{
    let mut block = Block::first(route);
    // Everything repeats from there, so later blocks show nothing new.
    let end = block.repeats_at(span);
    let mut best: Option<Longest> = None;
    while block.begin <= end {
        if let Some(found) = block.longest(semantics)
            && best.is_none_or(|best| found.delay > best.delay)
        {
            best = Some(found);
        }
        block = block.next();
    }
    best.unwrap()
}
