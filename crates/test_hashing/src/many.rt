//! The digests of many blocks, beside those that Python's hashlib gives.
ghost use Rattle.std.specs.Prelude.{◌≤◌};

use std::alloc::{AllocError, Global};
use std::test::Fail;
use verity_digest::{Algorithm, Digest, Hasher, Salt};

const ZERO: [u8; 32] = [0; 32];

// Byte n of all is n modulo 251.
fn numbers() -> [u8; 9880] {
    let mut bytes = [0u8; 9880];
    for (n, byte) in bytes.iter_mut().enumerate() {
        *byte = (n % 251) as u8;
    }
    bytes
}

// A hasher with a salt of so many bytes, each 7.
fn hasher(alloc: Global, salt: usize, algorithm: Algorithm) -> Result<Hasher, Fail>
    requires { salt ≤ 256 }
{
    Ok(Hasher::new(Salt::new(alloc, &[7; 256][..salt])?, algorithm))
}

// The SHA-256 digest of these digests, one after the other.
fn digest_of(alloc: Global, digests: &[Digest]) -> Result<Digest, Fail> {
    let mut all = Vec::new(alloc);
    for digest in digests {
        all.extend_from_slice(digest.bytes())?;
    }
    Ok(hasher(alloc, 0, Algorithm::Sha256)?.digest(&all))
}

// A digest in hexadecimal digits.
fn read(digits: &str) -> Result<Digest, Fail> {
    let mut bytes = ZERO;
    hex::decode_to_slice(digits, &mut bytes)?;
    Ok(Digest::from_bytes(bytes))
}

// The digest of those of nineteen blocks of the numbers, with a salt of so many bytes.
fn nineteen(alloc: Global, salt: usize, size: usize, algorithm: Algorithm) -> Result<Digest, Fail> {
    if 256 < salt || 520 < size {
        return Err(Fail::from("there are 256 bytes of salt and 520 of a block"));
    }
    let mut hasher = hasher(alloc, salt, algorithm)?;
    let mut digests = [Digest::from_bytes(ZERO); 19];
    hasher.digest_many(&numbers()[..19 * size], size, &mut digests);
    digest_of(alloc, &digests)
}

// How many bytes the salt and a block have, and the SHA-256 digest of the nineteen digests, one after the other.
const NINETEEN: [(usize, usize, Algorithm, &str); 16] = [
    (
        0,
        1,
        Algorithm::Sha256,
        "f33561e109c581833508293e0f25ec28b0bb5482b58f5f8c1cb1e45e65ad1923",
    ),
    (
        0,
        55,
        Algorithm::Sha256,
        "e2faf22a858e234d613c992f5f862bd9a311d603a38f3d7c0cae14b9ae9b457c",
    ),
    (
        0,
        56,
        Algorithm::Sha256,
        "a782ee79d7857907c73e2afce6405469e90a2705c5e7913cb845445c5c324332",
    ),
    (
        0,
        64,
        Algorithm::Sha256,
        "facc6b55ad285db0e9a173ce8c1a41765e20b88aeb91bfeb4902b0135a0d3a1d",
    ),
    (
        32,
        23,
        Algorithm::Sha256,
        "5cb2ea5ba106b498e4e957c16ec76aa1c8bf8ea5928925c322e4d3042939c596",
    ),
    (
        32,
        24,
        Algorithm::Sha256,
        "73ea21a7fe8afdc22e463c67805d2413a554a70914591852854098ed20f671c3",
    ),
    (
        31,
        512,
        Algorithm::Sha256,
        "43afff23e3d9845564e174ef0809ef281e797890dd74603b693aba011b5369d6",
    ),
    (
        256,
        520,
        Algorithm::Sha256,
        "3d0627d933bf4d75a4331bbc09dea710780911f357288cc79fad857aa094c5c8",
    ),
    (
        0,
        1,
        Algorithm::Sha512,
        "f9b94aab85659927e311fdb89604c981f7f3265eb6ed93c762eef32aa545f44b",
    ),
    (
        0,
        55,
        Algorithm::Sha512,
        "13993cbe61c275285c69edd1b3d0093b8a2b42060bdf657f8250ba8e3472882c",
    ),
    (
        0,
        56,
        Algorithm::Sha512,
        "ea71eb66ade8ff14621a739a2746c6ba41140e5ec3217f7e567c0e61af5c5376",
    ),
    (
        0,
        64,
        Algorithm::Sha512,
        "f5d8e1e66dbdce3eed03a75f8f31a96e0d6d6fae13cedadff3b2ea3b1d68fd4f",
    ),
    (
        32,
        23,
        Algorithm::Sha512,
        "004878af5e7f7e3c45473d500689a476add3f12d53ea86bbd5df9b351e165e04",
    ),
    (
        32,
        24,
        Algorithm::Sha512,
        "88c528cb36d42957027d2d14d5a1aae46e678fc16a8f0127a22e765ff886f123",
    ),
    (
        31,
        512,
        Algorithm::Sha512,
        "0f88d7fc1e8b23f6a29c35f65e8fb4259d5465c9bb6437627b340b72aa5d79b1",
    ),
    (
        256,
        520,
        Algorithm::Sha512,
        "261d464db77a2a1b78c3664ab86fb489ce80f56c79a23222eeafe31d1fca7804",
    ),
];

#[test]
fn digests_of_nineteen_blocks(rt: HostRuntime) -> Result<(), Fail> {
    for (salt, size, algorithm, expected) in NINETEEN {
        let found = nineteen(rt.alloc(), salt, size, algorithm)?;
        assert_eq!(rt; found, read(expected)?, "{salt} {size}");
    }
    Ok(())
}

// Adds the digests of eight to fifteen blocks of a hundred of the numbers.
fn add_counts(
    all: &mut Vec<Digest>,
    bytes: &[u8; 9880],
    hasher: &mut Hasher,
) -> Result<(), AllocError> {
    for count in 8..16 {
        let mut digests = [Digest::from_bytes(ZERO); 15];
        hasher.digest_many(&bytes[..100 * count], 100, &mut digests[..count]);
        all.extend_from_slice(&digests[..count])?;
    }
    Ok(())
}

// The digest of those of eight to fifteen blocks with every salt of up to 256 bytes, salt after salt, count after count.
fn every(alloc: Global, algorithm: Algorithm) -> Result<Digest, Fail> {
    let bytes = numbers();
    let mut all = Vec::new(alloc);
    for salt in 0..257 {
        let mut hasher = hasher(alloc, salt, algorithm)?;
        add_counts(&mut all, &bytes, &mut hasher)?;
    }
    digest_of(alloc, &all)
}

// So the padding's border is met at every place.
#[test]
fn every_salt(rt: HostRuntime) -> Result<(), Fail> {
    for (algorithm, expected) in [
        (
            Algorithm::Sha256,
            "d8df34a143e2b586e1ed29fc8955e3989934cb4f17202d0b7a90b60672c472b5",
        ),
        (
            Algorithm::Sha512,
            "7f7841760506e31b27a2bdda2b0e29b63a3b51be98bc98148bd7dc876ea604c0",
        ),
    ] {
        let found = every(rt.alloc(), algorithm)?;
        assert_eq!(rt; found, read(expected)?);
    }
    Ok(())
}
