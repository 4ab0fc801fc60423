//! The numbers that the generator draws, and the event that they choose.

ghost use Rattle.std.specs.Prelude.{◌≡◌, ◌≤◌, ◌<◌, ◌+◌, ◌^◌, ℕ, IfOk, IfSome, option_and_then};
ghost use Rattle.vp_model.specs.Generated.{next_draw, drawn, decimal_of, newest, generated_catalogue, generated_name, generated_call, generated_work, generated_cut, generated_event};
ghost use Rattle.vp_model.specs.World.{site_of};
ghost use Rattle.vp_base.specs.declared.event.Event.TheVariants as event;

use std::alloc::Global;
use std::marker::Model;
use vp_base::{Call, CallNo, CopyOf, Event, Name, NameFault, Newest, NoMemory, SiteId, Value};
use vp_text::print_number;
use vp_world::World;

/// A linear congruential source of numbers, modulo 2^31. A draw takes the bits from the seventeenth on, since the low ones repeat soon
/// (Knuth, The Art of Computer Programming, volume 2, section 3.2.1).
#[derive(Drop)]
pub struct Draws {
    state: u32,
}

impl Model for Draws {
    ghost use Rattle.std.specs.Prelude.{ℕ};

    ghost Value = { ℕ };

    ghost view = { λ d. d.state };
}

fn call_number(next: usize) -> CallNo
    requires { (1 ≤ next) × (next < 2 ^ 32) }
    ensures { result ≡ next }
{
    match CallNo::new(next as u32) {
        Some(number) => number,
        None => unreachable!(),
    }
}

fn number_value(alloc: Global, number: u32) -> Result<Value, NoMemory>
    requires { number < 1000 }
    ensures { IfOk result (λ value. value ≡ decimal_of number) }
{
    let mut text = Vec::new(alloc);
    print_number(&mut text, u64::from(number))?;
    match Value::read(alloc, &text) {
        Ok(value) => Ok(value),
        Err(NameFault::NoMemory) => Err(NoMemory),
        Err(NameFault::BadName { .. }) => unreachable!(),
    }
}

impl Draws {
    /// Makes a source whose first draw follows this seed, which is below 2^31.
    pub fn from_seed(seed: u32) -> Draws
        ensures { result ≡ seed }
    {
        Draws { state: seed }
    }

    /// Draws a number below `n`.
    fn draw(&mut self, n: u32) -> u32
        requires { 0 < n }
        ensures state { self.new ≡ next_draw self.old }
        ensures drawn { result ≡ drawn (next_draw self.old) n }
        ensures below { result < n }
    {
        let next = (u64::from(self.state) * 1_103_515_245 + 12_345) % 2_147_483_648;
        self.state = next as u32;
        self.state / 65_536 % n
    }

    /// Draws one of the five sites.
    fn site(&mut self) -> SiteId
        ensures state { self.new ≡ next_draw self.old }
        ensures drawn { result ≡ drawn (next_draw self.old) 5 + 1 }
    {
        SiteId::of(self.draw(5) as u8 + 1)
    }

    /// Draws one of the forty records, and returns its name.
    fn name(&mut self, world: &World) -> Result<Name, NoMemory>
        requires { world.now.catalogue ≡ generated_catalogue }
        ensures state { self.new ≡ next_draw self.old }
        ensures drawn { IfOk result (λ name. name ≡ generated_name (drawn (next_draw self.old) 40)) }
    {
        let record = self.draw(40) as usize;
        world.catalog().records()[record].name().copy_of()
    }

    /// Draws the next call of a transaction at the site: two reads, two writes, and the commit.
    fn call(
        &mut self,
        alloc: Global,
        world: &World,
        site: SiteId,
        newest: &Newest,
    ) -> Result<Event, NoMemory>
        requires catalogue { world.now.catalogue ≡ generated_catalogue }
        requires number { (1 ≤ newest.now.next) × (newest.now.next < 2 ^ 32) }
        ensures { IfOk result (λ event. (event, self.new) ≡ generated_call site newest.now self.old) }
    {
        let txn = newest.txn;
        let number = call_number(newest.next);
        let call = match newest.next {
            1..=2 => Call::Read {
                txn,
                number,
                name: self.name(world)?,
            },
            3..=4 => Call::Write {
                txn,
                number,
                name: self.name(world)?,
                value: number_value(alloc, self.draw(1000))?,
            },
            _ => Call::Commit { txn, number },
        };
        Ok(Event::Call { site, call })
    }

    /// Draws what a client of the site does.
    fn work(&mut self, alloc: Global, world: &World, site: SiteId) -> Result<Event, NoMemory>
        requires catalogue { world.now.catalogue ≡ generated_catalogue }
        requires numbers { IfSome (option_and_then (λ site. newest site.live) (site_of world.now.world site))
            (λ t. t.next < 2 ^ 32) }
        ensures { IfOk result
            (λ event. (event, self.new) ≡ generated_work site (site_of world.now.world site) self.old) }
    {
        match world.newest(site) {
            None => Ok(Event::Call {
                site,
                call: Call::Begin,
            }),
            Some(newest) if newest.pending => Ok(Event::Flow { count: 20 }),
            Some(newest) => self.call(alloc, world, site, &newest),
        }
    }

    /// Cuts the pair of the site with another one that is drawn, or heals it if it is cut.
    fn cut_or_heal(&mut self, world: &World, site: SiteId) -> Event
        requires { site ≤ 5 }
        ensures { (result, self.new) ≡ generated_cut world.now.world site self.old }
    {
        let other = SiteId::of((site.get() + self.draw(4) as u8) % 5 + 1);
        if world.is_cut(site, other) {
            Event::Heal { a: site, b: other }
        } else {
            Event::Cut { a: site, b: other }
        }
    }

    /// Draws the event of the next round.
    pub fn event(&mut self, alloc: Global, world: &World) -> Result<Event, NoMemory>
        requires catalogue { world.now.catalogue ≡ generated_catalogue }
        requires numbers { (site : ℕ) →
            IfSome (option_and_then (λ site. newest site.live) (site_of world.now.world site))
            (λ t. t.next < 2 ^ 32) }
        ensures { IfOk result
            (λ event. (event, self.new) ≡
            generated_event world.now.world (drawn (next_draw self.old) 16)
            (drawn (next_draw (next_draw self.old)) 5 + 1) (next_draw (next_draw self.old))) }
    {
        let kind = self.draw(16);
        let site = self.site();
        match kind {
            0..=8 => self.work(alloc, world, site),
            9..=11 => Ok(Event::Flow { count: 40 }),
            12 => Ok(Event::Tick { site }),
            13 => Ok(self.cut_or_heal(world, site)),
            14 if world.is_up(site) => Ok(Event::Crash { site }),
            14 => Ok(Event::Restart { site }),
            _ => Ok(Event::Call {
                site,
                call: Call::Regroup,
            }),
        }
    }
}
