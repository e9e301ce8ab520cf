ghost use Rattle.std.specs.Prelude.{◌≡◌};
ghost use Rattle.grove_nodes.specs.Planning.{refused_at};
ghost use Rattle.grove_nodes.specs.Putting.{counted_of};

use grove_build::Planned;

/// What a plan costs, and how many steps and rows it has with its flow; or the place for which a list or a part is
/// refused. What isn't told is 0.
#[repr(C)]
#[derive(Clone, Copy)]
pub struct Counted {
    pub cost: u64,
    pub steps: u32,
    pub rows: u32,
    pub place: u32,
}

impl Counted {
    pub fn of(planned: &Planned) -> Counted
        ensures { result ≡ counted_of planned.now }
    {
        Counted {
            cost: planned.cost,
            steps: planned.plan.steps().len() as u32,
            rows: planned.flow.rows().len() as u32,
            place: 0,
        }
    }

    pub fn refused(place: u32) -> Counted
        ensures { result ≡ refused_at place }
    {
        Counted {
            cost: 0,
            steps: 0,
            rows: 0,
            place,
        }
    }
}
