// What the value for a plan and its lines are together. The function does nothing, and its contract is the theorem.

ghost use Rattle.std.specs.Prelude.{◌≡◌, ℕ, List};
ghost use Rattle.order.specs.Lines.{order_lines};
ghost use Rattle.order.specs.Orders.{IsOrder, OrderedPlan};
ghost use Rattle.order.specs.declared.orders.Order.{Order};
ghost use Rattle.plan_core.specs.Contents.{Contents};

/// The lines of the value for a plan are the report that is due for the plan.
pub fn values_give_reports()
    ensures { (plan : Contents) (order : Order) (report : List ℕ) → IsOrder plan order →
        report ≡ order_lines plan order.pairs.items order.ways.items order.totals.items → OrderedPlan plan report }
{}
