//! The chart of a request: its calls in their order, cycles counted.

ghost use Rattle.std.specs.Prelude.{◌≡◌};

use cy_event::ChartItem;
use std::marker::Model;

/// The items of a chart, as a list.
#[derive(Debug, Drop)]
pub struct ChartItems {
    items: Vec<ChartItem>,
}

impl Model for ChartItems {
    ghost use Rattle.std.specs.Prelude.{List};
    ghost use Rattle.cy_event.specs.declared.table.ChartItem.{ChartItem};

    ghost Value = { List ChartItem };

    ghost view = { λ c. c.items.items };
}

impl ChartItems {
    /// These items. It takes no memory.
    pub fn of(items: Vec<ChartItem>) -> ChartItems
        ensures { result ≡ items.items }
    {
        ChartItems { items }
    }

    /// The items, lent.
    pub fn as_slice(&self) -> &[ChartItem]
        ensures { result.now ≡ self.now }
    {
        self.items.as_slice()
    }
}

/// The chart of one request of a connection.
#[derive(Debug, Drop)]
pub struct Chart {
    /// The number of the request on its connection, from 1.
    pub request: u64,
    /// Its calls. A request that no component served has none.
    pub items: ChartItems,
}
