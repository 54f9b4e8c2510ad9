use channel_path::*;
use disk_base::{How, Lba, NoMemory, Payload, Psn};
use prml_viterbi::{Work, chan_of, detect, levels_of, samples_of};
use rs_sector::{deal, encode_sector, gather};
use std::alloc::Global;
use std::test::Fail;

const WAYS: [How; 3] = [How::Light, How::Full, How::Erased];

fn samples_for(payload: &Payload) -> [i8; SAMPLES] {
    let mut samples = [0; SAMPLES];
    write_samples(payload, &mut samples);
    samples
}

// The samples of a payload of which so many encoded bytes of the first interleave are wrong.
fn samples_with_wrong(payload: &Payload, wrong: usize) -> [i8; SAMPLES] {
    let mut bytes = gather(&encode_sector(&deal(&payload.bytes())));
    for (i, byte) in bytes.iter_mut().enumerate() {
        if i % 4 == 0 && i / 4 < wrong {
            *byte ^= 0x55;
        }
    }
    let mut channel = [false; SAMPLES];
    rll_code::encode(&bytes, &mut channel);
    let mut levels = [0; SAMPLES];
    levels_of(&channel, &mut levels);
    let mut samples = [0; SAMPLES];
    samples_of(&levels, &mut samples);
    samples
}

#[test]
fn each_kind_on_its_sector(rt: HostRuntime) -> Result<(), Fail> {
    let mut path = Path::new(rt.alloc()).map_err(|_: NoMemory| Fail::from("no memory"))?;
    let p = Psn(16);
    for payload in [
        Payload::user(p, Lba(0), &[0; 512]),
        Payload::lost(p, Lba(911)),
        Payload::map_record(p, 3, 0, 1, 2, &[0xA5; 512]),
    ] {
        let samples = samples_for(&payload);
        for how in WAYS {
            assert!(rt; read_samples(&mut path, p, &samples, how) == Some(payload));
            assert!(rt; read_samples(&mut path, Psn(17), &samples, how).is_none());
        }
    }
    for how in WAYS {
        assert!(rt; read_samples(&mut path, Psn(0), &[0; SAMPLES], how).is_none());
    }
    Ok(())
}

#[test]
fn wrong_bytes(rt: HostRuntime) -> Result<(), Fail> {
    let mut path = Path::new(rt.alloc()).map_err(|_: NoMemory| Fail::from("no memory"))?;
    let p = Psn(20);
    let payload = Payload::user(p, Lba(4), &[0x11; 512]);
    for (wrong, light, full) in [
        (4, true, true),
        (5, false, true),
        (8, false, true),
        (9, false, false),
    ] {
        let samples = samples_with_wrong(&payload, wrong);
        assert_eq!(rt;
            read_samples(&mut path, p, &samples, How::Light) == Some(payload),
            light
        );
        assert_eq!(rt;
            read_samples(&mut path, p, &samples, How::Full) == Some(payload),
            full
        );
    }
    Ok(())
}

// How many bytes of the first interleave are flagged.
fn flagged(alloc: Global, samples: &[i8; SAMPLES]) -> Result<usize, Fail> {
    let mut work = Work::new(alloc, SAMPLES)?;
    let mut levels = [0; SAMPLES];
    detect(samples, &mut work, &mut levels);
    let mut channel = [false; SAMPLES];
    chan_of(&levels, &mut channel);
    let mut bytes = [0; 592];
    let mut flags = [false; 592];
    rll_code::decode(&channel, &mut bytes, &mut flags);
    Ok(flags.iter().step_by(4).filter(|flag| **flag).count())
}

// A drop of samples is heard as flagged bytes: 16 of them in an interleave are within reach as erasures, and 17 aren't.
#[test]
fn dropped_samples(rt: HostRuntime) -> Result<(), Fail> {
    let mut path = Path::new(rt.alloc()).map_err(|_: NoMemory| Fail::from("no memory"))?;
    let p = Psn(20);
    let payload = Payload::user(p, Lba(4), &[0x11; 512]);
    for (dropped, count, erased) in [(1010, 16, true), (1026, 17, false)] {
        let mut samples = samples_for(&payload);
        for (k, sample) in samples.iter_mut().enumerate() {
            if 1600 <= k && k < 1600 + dropped {
                *sample = 0;
            }
        }
        assert_eq!(rt; flagged(rt.alloc(), &samples)?, count);
        assert!(rt; read_samples(&mut path, p, &samples, How::Light).is_none());
        assert!(rt; read_samples(&mut path, p, &samples, How::Full).is_none());
        assert_eq!(rt;
            read_samples(&mut path, p, &samples, How::Erased) == Some(payload),
            erased
        );
    }
    Ok(())
}
