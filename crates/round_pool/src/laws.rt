ghost use Rattle.std.specs.Prelude.{◌≡◌, ℕ, List, map};
ghost use Rattle.round_pool.specs.Pieces.{AllGiven};

/// Where each job has one answer, what the jobs give is told by the jobs alone: not by the workers, the pieces or the order in which they ran.
pub fn answers_follow_from_the_jobs<A>()
    ensures { (answer_of : ℕ → A) (jobs : List ℕ) (answers : List A) → AllGiven (λ job answer. answer ≡ answer_of job) jobs answers → answers ≡ map answer_of jobs }
{}
