// Where cases are tried: the machine, and the runtime, which tells what comes of them.
use crate::fault::Fault;
use crate::machine::Machine;
use crate::plane::Point;
use crate::tally::Tally;
use std::alloc::Global;
use std::io;

#[derive(Drop)]
pub struct Bench {
    rt: HostRuntime,
    pub machine: Machine,
}

impl Bench {
    pub fn new(rt: HostRuntime) -> io::Result<Bench> {
        let machine = Machine::new(rt.alloc())?;
        Ok(Bench { rt, machine })
    }

    pub fn heap(&self) -> Global {
        self.rt.alloc()
    }

    // Tells how many of a group hold.
    pub fn tell(&self, name: &str, tally: Tally) -> io::Result<()> {
        println!(self.rt; "{name}: {tally}")
    }

    // Whether a case holds. What is wrong with it is told, with its points.
    pub fn holds(&self, outcome: Result<(), Fault>, points: &[Point]) -> io::Result<bool> {
        match outcome {
            Ok(()) => Ok(true),
            Err(Fault::NoMemory(e)) => Err(e.into()),
            Err(fault) => {
                println!(self.rt; "{fault}, with the points")?;
                for p in points {
                    println!(self.rt; "  {p}")?;
                }
                Ok(false)
            }
        }
    }
}
