// Where a table's variables and nodes stand.
ghost use Rattle.std.specs.Prelude.{◌≡◌};
ghost use Rattle.automata_steps.specs.Values.{values_of};

use automata_records::Shape;
use machines::values::Values;

pub fn values_of(shape: Shape) -> Values
    ensures { result ≡ values_of shape }
{
    let first = (shape.automata as usize)
        + (shape.locations as usize)
        + (shape.edges as usize)
        + (shape.literals as usize)
        + (shape.clocks as usize);
    Values {
        first,
        variables: shape.variables,
        nodes: shape.nodes,
    }
}
