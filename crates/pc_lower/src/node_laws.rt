ghost use Rattle.std.specs.Prelude.{ℕ, Bool, List};
ghost use Rattle.pc_lower.specs.Flow.{State, Node, Rest, flow_at, flows_of, again};
ghost use Rattle.pc_lower.specs.Residuals.{body_at, Of, LeavesSo};

/// What a function of a flow leaves is a residual of its node.
pub fn a_node_leaves_its_residuals()
    ensures { (bodies : List Node) (f : ℕ) (w : State) → LeavesSo (Of bodies (body_at bodies f)) (flow_at (flows_of bodies) f w) }
{}

/// And so is what is left of a residual.
pub fn a_residual_stays_one()
    ensures { (bodies : List Node) (weak fires : ℕ → Bool) (n : Node) (r : Rest) → Of bodies n r → (w : State) →
        LeavesSo (Of bodies n) (again (flows_of bodies) weak fires r w) }
{}
