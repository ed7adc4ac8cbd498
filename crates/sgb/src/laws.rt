//! What holds of all answers: functions with nothing in them, whose contracts say so.
ghost use Rattle.std.specs.Prelude.{◌≡◌, ℕ, Bool, List, Option, Result, Ok, Err, false};
ghost use Rattle.sgb_vec.specs.declared.panics.Panic.{Panic};
ghost use Rattle.sgb_graph.specs.Graphs.{GraphData};
ghost use Rattle.sgb_file.specs.Devices.{AppendsUnlessFailed, Change};
ghost use Rattle.sgb_expr.specs.Expression.{Expression};
ghost use Rattle.sgb_requests.specs.Faults.{fault_line, status_of};
ghost use Rattle.sgb_requests.specs.declared.faults.Fault.{Fault};
ghost use Rattle.sgb_requests.specs.declared.requests.Request.{Request};
ghost use Rattle.sgb.specs.Outcomes.{IsAnswered, answer_of, reads_input};
ghost use Rattle.sgb.specs.Runs.{IsRunFrom};
ghost use Rattle.sgb_values.specs.Values.{IsValueOn};
ghost use Rattle.sgb.specs.Writing.{Effect, IsEndedFrom};

/// A request that reads no input has the same answer whatever `stdin` is.
pub fn input_unread_law()
    ensures { (r : Request) (a b : Result GraphData Panic) → reads_input r ≡ false
        → answer_of r a ≡ answer_of r b }
{}

/// On each input an expression has one value, and one only; and a request one answer.
pub fn answered_once_law()
    ensures value { (e : Expression) (input : List ℕ) → (value : Result GraphData Panic)
        × IsValueOn input e value
        × ((other : Result GraphData Panic) → IsValueOn input e other → other ≡ value) }
    ensures answer { (r : Request) (input : List ℕ) → (answer : Result (List ℕ) Fault)
        × IsAnswered r input answer
        × ((other : Result (List ℕ) Fault) → IsAnswered r input other → other ≡ answer) }
{}

/// How a program over this library shows that a call of it is a run: answering ended so, with standard error left alone;
/// or with a fault, whose line was then written to standard error, and whose status is returned.
pub fn run_endings_law()
    ensures answered { (failed : Bool) (answer : Result (List ℕ) Fault)
        (out : Effect (Option (List ℕ))) (err : Change)
        → err.after ≡ err.before → IsEndedFrom {T = ℕ} failed answer out (Ok 0)
        → IsRunFrom failed answer (record { out = out; err = err; status = 0 }) }
    ensures reported { (failed : Bool) (answer : Result (List ℕ) Fault) (fault : Fault)
        (out : Effect (Option (List ℕ))) (err : Change)
        → AppendsUnlessFailed err (fault_line fault)
        → IsEndedFrom {T = ℕ} failed answer out (Err fault)
        → IsRunFrom failed answer (record { out = out; err = err; status = status_of fault }) }
{}
