// Which packets write a range: the command, then its data in packets of whole units, one after the other, by value.
#![tactic(auto)]

ghost use Rattle.std.specs.Prelude.{◌≡◌, ◌≤◌};
ghost use Rattle.host_plan.specs.Plan.{size_for, plan_of, following_of};

use host_request::Request;

// What is still to be sent of a write.
#[derive(Clone, Copy)]
pub struct Plan {
    pub sad: u32,
    pub ead: u32,
    // whether the command was sent
    pub begun: bool,
    // how many data bytes a packet has, but for the last
    pub size: usize,
    // the data that is still to be sent: from `from` up to, not including, `end`
    pub from: usize,
    pub end: usize,
}

// A request to send, with the part of the data that goes with it, and what is to be sent behind it.
#[derive(Clone, Copy)]
pub struct Sending {
    pub request: Request,
    pub from: usize,
    pub to: usize,
    pub rest: Plan,
}

// Why there is no plan.
#[derive(Clone, Copy)]
pub enum Unplanned {
    // SAD is above EAD
    Reversed,
    // the unit is 0
    NoUnit,
    // no packet holds a unit
    LongUnit,
    // the unit does not divide SAD
    StartUnaligned,
    // nor EAD + 1
    EndUnaligned,
    // the data is not as long as the range
    WrongAmount,
}

// How many bytes a packet of whole units has at most.
fn size_for(unit: usize) -> usize
    requires { 1 ≤ unit }
    ensures { result ≡ size_for unit }
{
    packet::LONGEST_DATA / unit * unit
}

// The plan to write `count` bytes from SAD to EAD, into an area with this write unit.
#[tactic(auto, unfolding(crate::specs::Plan::plan_checks, verdict::specs::Check::first_fault))]
pub fn plan_write(sad: u32, ead: u32, unit: u32, count: usize) -> Result<Plan, Unplanned>
    ensures { result ≡ plan_of sad ead unit count }
{
    if ead < sad {
        return Err(Unplanned::Reversed);
    }
    if unit == 0 {
        return Err(Unplanned::NoUnit);
    }
    let wau = unit as usize;
    if packet::LONGEST_DATA < wau {
        return Err(Unplanned::LongUnit);
    }
    let behind = ead as usize + 1;
    if sad % unit != 0 {
        return Err(Unplanned::StartUnaligned);
    }
    if behind % wau != 0 {
        return Err(Unplanned::EndUnaligned);
    }
    if count != behind - sad as usize {
        return Err(Unplanned::WrongAmount);
    }
    Ok(Plan {
        sad,
        ead,
        begun: false,
        size: size_for(wau),
        from: 0,
        end: count,
    })
}

// The next request of a plan: first the command, then the data in order.
#[tactic(auto, unfolding(crate::specs::Plan::following_of))]
pub fn next_request(plan: Plan) -> Option<Sending>
    ensures { result ≡ following_of plan }
{
    if !plan.begun {
        return Some(Sending {
            request: Request::Write(plan.sad, plan.ead),
            from: plan.from,
            to: plan.from,
            rest: Plan {
                begun: true,
                ..plan
            },
        });
    }
    if plan.end <= plan.from {
        return None;
    }
    let to = plan.from + (plan.end - plan.from).min(plan.size);
    Some(Sending {
        request: Request::WriteData,
        from: plan.from,
        to,
        rest: Plan { from: to, ..plan },
    })
}
