ghost use Rattle.std.specs.Prelude.{◌≡◌, ◌+◌, ◌≤◌, ◌<◌, IfOk};

use channel_path::{Path, SAMPLES, write_samples};
use disk_base::{How, Lba, Payload, Psn, Stage};
use platter_model::*;
use read_recovery::stages;
use std::alloc::Global;
use std::test::Fail;

const PLAIN: Stage = Stage {
    number: 0,
    reread: 0,
    offset: 0,
    how: How::Light,
};

// Forty-eight sectors that were never written.
fn fresh(alloc: Global) -> Result<Platter, Fail>
    ensures { IfOk result (λ platter. platter.sectors ≡ 48) }
{
    Ok(Platter::factory(alloc, 48, &[])?)
}

fn block_of(p: u32, byte: u8) -> Payload
    ensures { result.psn.0 ≡ p }
{
    Payload::user(Psn(p), Lba(4), &[byte; 512])
}

fn put(platter: &mut Platter, payload: &Payload) -> Result<WriteAnswer, Fail>
    requires { payload.now.psn.0 < platter.old.sectors }
    ensures { platter.new.sectors ≡ platter.old.sectors }
{
    platter.reserve(2)?;
    Ok(platter.write(payload.psn, payload))
}

fn harm(platter: &mut Platter, damage: Damage) -> Result<(), Fail>
    requires sector { damage.p.0 < platter.old.sectors }
    requires within { damage.first + damage.count ≤ 9478 }
    ensures { platter.new.sectors ≡ platter.old.sectors }
{
    platter.reserve(1)?;
    platter.damage(damage);
    Ok(())
}

// What a stage reads from a sector, noted in the list.
fn read_by(
    platter: &mut Platter,
    path: &mut Path,
    p: Psn,
    stage: Stage,
) -> Result<Option<Payload>, Fail>
    requires { p.0 < platter.old.sectors }
    ensures { platter.new.sectors ≡ platter.old.sectors }
{
    platter.reserve(2)?;
    let mut samples = [0; SAMPLES];
    Ok(platter.try_sector(path, &mut samples, p, stage).flatten())
}

// A soft damage is over at its count of rereads, and a write fault lets no write through.
#[test]
fn soft_damage_and_a_write_fault(rt: HostRuntime) -> Result<(), Fail> {
    let mut path = Path::new(rt.alloc())?;
    let mut platter = fresh(rt.alloc())?;
    let payload = block_of(20, 0);
    assert!(rt; put(&mut platter, &payload)? == WriteAnswer::Written);
    assert!(rt; read_by(&mut platter, &mut path, Psn(20), PLAIN)? == Some(payload));
    let damage = Damage {
        p: Psn(20),
        first: 0,
        count: 9478,
        lasting: Lasting::Soft(2),
        effect: Effect::Drop,
    };
    harm(&mut platter, damage)?;
    let once = Stage { reread: 1, ..PLAIN };
    let twice = Stage { reread: 2, ..PLAIN };
    assert!(rt; read_by(&mut platter, &mut path, Psn(20), once)?.is_none());
    assert!(rt; read_by(&mut platter, &mut path, Psn(20), twice)? == Some(payload));
    platter.reserve(1)?;
    platter.write_fault(Psn(20));
    assert!(rt; put(&mut platter, &payload)? == WriteAnswer::Fault);
    assert!(rt; platter.ops().last() == Some(&Op::WriteFailed { p: Psn(20) }));
    assert_eq!(rt; platter.strays(), 0);
    Ok(())
}

// The second of two writes is torn, and leaves nothing that a stage finds.
#[test]
fn armed_cut(rt: HostRuntime) -> Result<(), Fail> {
    let mut path = Path::new(rt.alloc())?;
    let mut platter = fresh(rt.alloc())?;
    let tear = Tear {
        left: Left::Nothing,
        scar: 0,
    };
    platter.arm(2, tear);
    let torn = block_of(21, 0);
    assert!(rt; put(&mut platter, &block_of(20, 0))? == WriteAnswer::Written);
    assert!(rt; put(&mut platter, &torn)? == WriteAnswer::Off);
    assert!(rt; platter.is_off());
    assert!(rt;
        platter.ops().get(1)
            == Some(&Op::Torn {
                payload: torn,
                tear
            })
    );
    assert!(rt; platter.ops().get(2) == Some(&Op::Cut));
    platter.reserve(1)?;
    platter.power();
    for stage in stages(2).as_slice() {
        assert!(rt; read_by(&mut platter, &mut path, Psn(21), *stage)?.is_none());
    }
    Ok(())
}

// Damage that makes another payload of a sector's samples is a stray once it is read.
#[test]
fn stray(rt: HostRuntime) -> Result<(), Fail> {
    let mut path = Path::new(rt.alloc())?;
    let mut platter = fresh(rt.alloc())?;
    let other = block_of(20, 0x11);
    assert!(rt; put(&mut platter, &block_of(20, 0))? == WriteAnswer::Written);
    turn_into(&mut platter, &block_of(20, 0), &other)?;
    assert!(rt; read_by(&mut platter, &mut path, Psn(20), PLAIN)? == Some(other));
    assert_eq!(rt; platter.strays(), 1);
    Ok(())
}

// Adds the difference of two payloads' samples, place by place.
fn turn_into(platter: &mut Platter, from: &Payload, to: &Payload) -> Result<(), Fail>
    requires { 20 < platter.old.sectors }
    ensures { platter.new.sectors ≡ platter.old.sectors }
{
    let mut old = [0; SAMPLES];
    write_samples(from, &mut old);
    let mut new = [0; SAMPLES];
    write_samples(to, &mut new);
    for k in 0..SAMPLES {
        if old[k] != new[k] {
            let more = new[k].wrapping_sub(old[k]);
            harm(platter, damage_at(k as u16, more))?;
        }
    }
    Ok(())
}

fn damage_at(first: u16, more: i8) -> Damage
    ensures sector { result.p.0 ≡ 20 }
    ensures within { result.first + result.count ≡ first + 1 }
{
    Damage {
        p: Psn(20),
        first,
        count: 1,
        lasting: Lasting::Hard,
        effect: Effect::Add(more),
    }
}
