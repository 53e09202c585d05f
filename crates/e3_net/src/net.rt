// The network: what decides the fates of packets, and the packets that are pending.
ghost use Rattle.std.specs.Prelude.{◌≡◌, ◌+◌, ◌-◌, ◌^◌, ◌<◌, ◌≤◌, suc, length, take, IfOk, OnOk, option_copied, option_map, slice_get};
ghost use Rattle.e3_net.specs.Traffic.{copies_now, fresh, packet_to, queue_in, sends, sends_all, takes};
ghost use Rattle.e3_world.specs.Legal.{numbered};

use crate::queue::Queue;
use e3_types::{List, Message, NoMemory, Packet, Scenario, SiteSet};
use e3_world::{copies_by_luck, fate_word, same_part, sites_to};
use std::alloc::Global;
use std::marker::Model;

/// The network. Of each packet that is pending it keeps one, with the count of its copies.
#[derive(Drop)]
pub struct Net {
    luck: u64,
    loss: u32,
    repeat: u32,
    parts: List<SiteSet>,
    calm: bool,
    sent: u64,
    waiting: Queue,
}

impl Model for Net {
    ghost use Rattle.std.specs.Prelude.{◌+◌, ◌≤◌};
    ghost use Rattle.e3_net.specs.Traffic.{NetView};

    ghost Value = { NetView };

    ghost view = { λ n. record {
      traffic = record {
        luck = n.luck;
        loss = n.loss;
        repeat = n.repeat;
        parts = n.parts;
        calm = n.calm;
        sent = n.sent;
        waiting = n.waiting.items;
      };
      room = n.waiting.room;
    } };

    ghost invariant = { λ n. (n.loss + n.repeat ≤ 100) × (n.waiting.given ≤ n.sent) };
}

impl Net {
    /// The network of so many sites, all in one part. Of a hundred packets about `loss` are lost, and about `repeat` come
    /// twice; which, the luck decides. Want of memory is the only error.
    pub fn new(
        alloc: Global,
        sites: u32,
        luck: u64,
        loss: u32,
        repeat: u32,
    ) -> Result<Net, NoMemory>
        requires sites { sites ≤ 64 }
        requires shares { loss + repeat ≤ 100 }
        ensures { IfOk result (λ net. net.traffic ≡ fresh sites luck loss repeat) }
    {
        let mut parts = List::new(alloc);
        parts.push(sites_to(sites))?;
        Ok(Net {
            luck,
            loss,
            repeat,
            parts,
            calm: false,
            sent: 0,
            waiting: Queue::new(alloc)?,
        })
    }

    /// The network of a scenario: of its sites, with its luck and its shares. Want of memory is the only error.
    pub fn of(alloc: Global, scenario: &Scenario) -> Result<Net, NoMemory>
        requires sites { length scenario.now.weights ≤ 64 }
        requires shares { scenario.now.loss + scenario.now.repeat ≤ 100 }
        ensures { IfOk result (λ net. net.traffic ≡ fresh (length scenario.now.weights) scenario.now.luck scenario.now.loss scenario.now.repeat) }
    {
        Net::new(
            alloc,
            scenario.weights.len() as u32,
            scenario.luck,
            scenario.loss,
            scenario.repeat,
        )
    }

    /// Makes room for so many packets more. Want of memory is the only error.
    pub fn reserve(&mut self, outs: u64) -> Result<(), NoMemory>
        ensures traffic { self.new.traffic ≡ self.old.traffic }
        ensures grows { self.old.room ≤ self.new.room }
        ensures ok { OnOk result (outs ≤ self.new.room) }
    {
        self.waiting.reserve(outs)
    }

    // How many copies of a packet are to be delivered. None go to a site above 64.
    fn copies(&self, packet: &Packet) -> u8
        ensures number { result ≡ copies_now self.now.traffic packet.now }
        ensures low { 0 < result → packet.now.to ≤ 64 }
    {
        if !same_part(self.parts.as_slice(), packet.from, packet.to) {
            return 0;
        }
        if self.calm {
            return 1;
        }
        copies_by_luck(
            self.loss,
            self.repeat,
            fate_word(self.luck, packet.number) % 100,
        )
    }

    /// Sends a message, and answers the number of its packet, from 1. The packet's fate is fixed now. It takes no memory.
    pub fn send(&mut self, from: u32, to: u32, msg: Message) -> u64
        requires few { self.old.traffic.sent < 2 ^ 64 - 1 }
        requires room { 1 ≤ self.old.room }
        ensures number { result ≡ self.old.traffic.sent + 1 }
        ensures traffic { self.new.traffic ≡ sends self.old.traffic «from» to msg }
        ensures room { self.old.room ≤ self.new.room + 1 }
    {
        let number = self.sent + 1;
        let packet = Packet {
            number,
            from,
            to,
            msg,
        };
        let copies = self.copies(&packet);
        self.sent = number;
        self.waiting.add(packet, copies);
        number
    }

    /// Sends packets one after the other, and answers them with their numbers. It takes no memory.
    pub fn send_all(&mut self, outs: List<Packet>) -> List<Packet>
        requires few { self.old.traffic.sent + length outs < 2 ^ 64 }
        requires room { length outs ≤ self.old.room }
        ensures numbers { result ≡ numbered (suc self.old.traffic.sent) outs }
        ensures traffic { self.new.traffic ≡ sends_all self.old.traffic outs }
        ensures room { self.old.room ≤ self.new.room + length outs }
    {
        let mut outs = outs.into_vec();
        for i in 0..outs.len() {
            let packet = outs[i].copy();
            outs[i].number = self.send(packet.from, packet.to, packet.msg);
        }
        List::from_vec(outs)
    }

    /// Takes a copy of the pending packet to this site with the least number. None exactly where none is pending to it.
    /// What waits before it is not looked at: it takes about the same time however many wait.
    pub fn take(&mut self, site: u32) -> Option<Packet>
        ensures packet { result ≡ packet_to site self.old.traffic }
        ensures traffic { self.new.traffic ≡ takes site self.old.traffic }
        ensures room { self.old.room ≤ self.new.room }
    {
        self.waiting.take(site)
    }

    /// The pending packet to this site with the least number; it stays pending. None exactly where none is pending to it.
    pub fn next_to(&self, site: u32) -> Option<&Packet>
        ensures { option_copied result ≡ packet_to site self.now.traffic }
    {
        self.waiting.first_to(site)
    }

    /// The pending packets to this site, so many at most, each as often as it has copies left, that of least number first:
    /// what `take` gives, call by call. They stay pending. Want of memory is the only error.
    pub fn next_few(&self, alloc: Global, site: u32, most: u32) -> Result<List<Packet>, NoMemory>
        ensures { IfOk result (λ few. few ≡ take most (queue_in site self.now.traffic.waiting)) }
    {
        self.waiting.first_few(alloc, site, most)
    }

    /// The pending packet with the least number. None exactly where none is pending.
    pub fn first_pending(&self) -> Option<&Packet>
        ensures { option_copied result ≡ option_map (λ w. w.packet) (slice_get self.now.traffic.waiting 0) }
    {
        self.waiting.first()
    }

    /// The receiver of the pending packet with the least number. None exactly where none is pending.
    pub fn first(&self) -> Option<u32>
        ensures { result ≡ option_map (λ w. w.packet.to) (slice_get self.now.traffic.waiting 0) }
    {
        match self.first_pending() {
            Some(packet) => Some(packet.to),
            None => None,
        }
    }

    /// How many packets are pending. One of which two copies are left is counted once.
    pub fn pending(&self) -> u64
        ensures { result ≡ length self.now.traffic.waiting }
    {
        self.waiting.len()
    }

    /// How many packets were sent.
    pub fn sent(&self) -> u64
        ensures { result ≡ self.now.traffic.sent }
    {
        self.sent
    }

    /// The network falls into these parts. What is sent from now on goes to the other sites of the sender's part alone;
    /// what is pending stays so.
    pub fn parts(&mut self, parts: List<SiteSet>)
        ensures traffic { self.new.traffic ≡ record self.old.traffic { parts = parts } }
        ensures room { self.new.room ≡ self.old.room }
    {
        self.parts = parts;
    }

    /// Whether it is calm from now on: then what is sent within a part is lost and repeated by no luck.
    pub fn calm(&mut self, on: bool)
        ensures traffic { self.new.traffic ≡ record self.old.traffic { calm = on } }
        ensures room { self.new.room ≡ self.old.room }
    {
        self.calm = on;
    }
}
