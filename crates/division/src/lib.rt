// The division of a size's sets over jobs: the ranks of a job (scope, "Numbering and dividing"). Every argument may be
// anything its type holds: what is out of range is refused, in the scope's order.
#![tactic(auto)]

ghost use Rattle.std.specs.Prelude.{◌≡◌, ◌≤◌, ◌<◌};
ghost use Rattle.division.specs.Answers.{job_told, job_ranks, max_jobs};
ghost use Rattle.division.specs.Division.{start};

pub use sets::Refusal;

pub const MAX_JOBS: u64 = 65536;

// The ranks from one up to, without, the other.
#[derive(Clone, Copy)]
pub struct Ranks {
    pub from: u64,
    pub to: u64,
}

// The ranks that job number `job` of `jobs` has to visit.
pub fn job(wires: usize, size: usize, job: u64, jobs: u64) -> Result<Ranks, Refusal>
    ensures { job_told result ≡ job_ranks wires size job jobs }
{
    sets::within(wires, size)?;
    if jobs == 0 || MAX_JOBS < jobs || jobs <= job {
        return Err(Refusal::NoSuchJob);
    }
    let table = counts::table();
    let all = counts::count(&table, wires, size);
    Ok(Ranks {
        from: first_rank(all, jobs, job),
        to: first_rank(all, jobs, job + 1),
    })
}

// The floor of i × all / jobs. The product passes 64 bits, so the quotient is put together from that of `all` and what
// its rest adds.
fn first_rank(all: u64, jobs: u64, i: u64) -> u64
    requires { (0 < jobs) × (jobs ≤ max_jobs) × (i ≤ jobs) }
    ensures { result ≡ start all jobs i }
{
    let whole = all / jobs;
    let rest = all % jobs;
    i * whole + i * rest / jobs
}
