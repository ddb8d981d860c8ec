//! A file under layers that are chosen on the command line, and what is done with it.
use crate::failure::Failure;
use crate::input::{Input, Reader, Reading};
use layers::layer::Layer;
use pages::sources::Source;
use pile::choice::Choice;
use pile::orders::Order;

/// What is done with a source once its layers are on.
pub trait Task: Drop {
    fn perform<S: Source + Drop>(&self, rt: &HostRuntime, source: S) -> Result<(), Failure>;
}

/// Whether neighbouring orders are of one layer.
fn share_layer(order: &Order, next: &Order) -> bool {
    matches!((order, next), (Order::Select(_), Order::Select(_)))
}

/// A source under a layer that has taken some orders.
fn covered<S: Source + Drop>(source: S, orders: &[Order]) -> Result<Layer<S, Choice>, Failure> {
    let mut layer: Layer<S, Choice> = Layer::new(source);
    for order in orders {
        layer.order(*order)?;
    }
    Ok(layer)
}

/// How many layers may still be put on. A type, since each layer makes another type of source.
trait Room {
    /// Puts layers on a source, each by its orders, and does the task with it.
    fn perform<S: Source + Drop, T: Task>(
        rt: &HostRuntime,
        source: S,
        layers: &[&[Order]],
        task: &T,
    ) -> Result<(), Failure>;
}

struct Full;

struct OneMore<R> {
    rest: R,
}

impl Room for Full {
    fn perform<S: Source + Drop, T: Task>(
        rt: &HostRuntime,
        source: S,
        layers: &[&[Order]],
        task: &T,
    ) -> Result<(), Failure> {
        match layers {
            [] => task.perform(rt, source),
            _ => Err(Failure::TooManyLayers),
        }
    }
}

impl<R: Room> Room for OneMore<R> {
    fn perform<S: Source + Drop, T: Task>(
        rt: &HostRuntime,
        source: S,
        layers: &[&[Order]],
        task: &T,
    ) -> Result<(), Failure> {
        match layers {
            [] => task.perform(rt, source),
            [orders, rest @ ..] => R::perform(rt, covered(source, orders)?, rest, task),
        }
    }
}

/// Eight layers.
type Eight = OneMore<OneMore<OneMore<OneMore<OneMore<OneMore<OneMore<OneMore<Full>>>>>>>>;

/// A file under layers.
#[derive(Drop)]
pub struct Pile {
    pub input: Input,
    pub orders: Vec<Order>,
}

impl Pile {
    /// Reads the file, puts the layers of the orders on it, and does the task with it.
    pub fn perform<T: Task>(&self, rt: &HostRuntime, task: &T) -> Result<(), Failure> {
        let layers: Vec<&[Order]> = self.orders.chunk_by(share_layer).collect(rt.alloc())?;
        let layers = layers.as_slice();
        self.input.read(rt, &UnderLayers { layers, task })
    }
}

/// A task that is done once layers are on the reader.
#[derive(Drop)]
struct UnderLayers<'b, T> {
    layers: &'b [&'b [Order]],
    task: &'b T,
}

impl<'b, T: Task> Reading for UnderLayers<'b, T> {
    fn perform<R: Reader>(
        &self,
        rt: &HostRuntime,
        reader: R,
        _index: &[u32],
    ) -> Result<(), Failure> {
        Eight::perform(rt, reader, self.layers, self.task)
    }
}
