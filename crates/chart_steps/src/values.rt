// Where a set's variables and nodes stand.
ghost use Rattle.std.specs.Prelude.{◌≡◌};
ghost use Rattle.chart_steps.specs.Values.{values_of};

use chart_records::Shape;
use chart_records::fields::first_variable;
use machines::values::Values;

pub fn values_of(shape: Shape) -> Values
    ensures { result ≡ values_of shape }
{
    let first = first_variable(shape);
    Values {
        first,
        variables: shape.variables,
        nodes: shape.nodes,
    }
}
