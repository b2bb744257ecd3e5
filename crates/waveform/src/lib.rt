// The waveform of the five LUT registers in KW mode and what it does to a pixel (waveform.rs).
//
// A LUT is seven groups of six bytes: four 2-bit level selects (phase A in bits 7:6), the frame
// counts of the four phases, and how many times the group runs. The waveform ends after the seventh
// group, or at the first group that runs no time or has no frame. A pixel's voltage in a phase is
// its source level less VCOM's in the same phase.
#![tactic(auto)]

ghost use Rattle.std.specs.Prelude.{◌≡◌, List, ℕ, ◌<◌, ◌≤◌, ◌-◌, ◌/◌, ◌*◌, min, length, take, drop, replicate, ℤ};
ghost use Rattle.base.specs.Word.{top};
ghost use Rattle.glass.specs.Transfer.{Acts};
ghost use Rattle.waveform.specs.Levels.{levels_of, level_of_code};
ghost use Rattle.waveform.specs.Tables.{group_of, table_of, tables_of, waveform_of, sum_of, ends, running};
ghost use Rattle.waveform.specs.Tables.{table_frame_count, refresh_frames, duration_of};
ghost use Rattle.waveform.specs.Frames.{drive_of, vcom_codes, round_frames, group_frames, codes_of, frames_of};
ghost use Rattle.waveform.specs.InnerProgress.{Parts, Drives, Extends, frames_under};
ghost use Rattle.waveform.specs.InnerPlaces.{place_at, start_at, next_place, codes_from, Placed, Stands};
ghost use Rattle.waveform.specs.InnerPlaces.{common_run, beside_under};

use glass::Transfer;
use supply::supply_millivolts;

// Groups of a LUT.
pub const GROUPS: usize = 7;
// Bytes of a group.
const GROUP_BYTES: usize = 6;
// Bytes of a LUT.
const LUT_BYTES: usize = GROUPS * GROUP_BYTES;
// Phases of a group.
const PHASES: usize = 4;
// The last of them.
const LAST_PHASE: usize = PHASES - 1;

// The LUTs: 0 drives VCOM (20), 1 to 4 the pixels by their old and new bits (21 to 24).
pub const LUTS: usize = 5;

// Frames of VCOM_DC that the controller adds at the end of a waveform.
const TAIL_FRAMES: u64 = 2;

// The supply levels that a LUT selects, in millivolts; VDL lies below zero, and this is how far.
#[repr(C)]
#[derive(Clone, Copy)]
pub struct Levels {
    pub vdh: u16,
    pub vdl: u16,
    pub vdhr: u16,
}

impl Levels {
    // VDH, VDL and VDHR by the third, fourth and fifth byte of PWR.
    pub fn from_power_setting(power: [u8; 5]) -> Levels
        ensures { result ≡ levels_of power }
    {
        Levels {
            vdh: supply_millivolts(power[2]),
            vdl: supply_millivolts(power[3]),
            vdhr: supply_millivolts(power[4]),
        }
    }
}

// One group of a LUT.
#[repr(C)]
#[derive(Clone, Copy)]
pub struct Group {
    // The level selects of phases A to D.
    pub codes: [u8; PHASES],
    pub frames: [u8; PHASES],
    // How many times the group runs.
    pub repeats: u8,
}

// The five LUTs as a refresh reads them, with the supplies and the frame period: table 0 drives
// VCOM, 1 to 4 the pixels by their old and new bits.
#[repr(C)]
#[derive(Clone, Copy)]
pub struct Waveform {
    pub tables: [[Group; GROUPS]; LUTS],
    pub levels: Levels,
    pub frame_ns: u64,
    // Rule 2: VCOM goes by its own frame counts, and not by the pixel's phases.
    pub vcom_by_frame: bool,
}

impl Group {
    pub const BLANK: Group = Group {
        codes: [0; PHASES],
        frames: [0; PHASES],
        repeats: 0,
    };

    fn read(lut: &[u8; LUT_BYTES], group: usize) -> Group
        requires { group < 7 }
        ensures { result ≡ group_of lut.now group }
    {
        let at = group * GROUP_BYTES;
        let levels = lut[at];
        Group {
            codes: [levels / 64, levels / 16 % 4, levels / 4 % 4, levels % 4],
            frames: [lut[at + 1], lut[at + 2], lut[at + 3], lut[at + 4]],
            repeats: lut[at + 5],
        }
    }
}

fn decode_table(lut: &[u8; LUT_BYTES]) -> [Group; GROUPS]
    ensures { result ≡ table_of lut.now }
{
    let mut table = [Group::BLANK; GROUPS];
    for k in 0..GROUPS {
        table[k] = Group::read(lut, k);
    }
    table
}

// The five LUT registers, decoded.
pub fn decode(luts: [[u8; LUT_BYTES]; LUTS]) -> [[Group; GROUPS]; LUTS]
    ensures { result ≡ tables_of luts }
{
    let mut tables = [[Group::BLANK; GROUPS]; LUTS];
    for k in 0..LUTS {
        tables[k] = decode_table(&luts[k]);
    }
    tables
}

// The frames of one round of a group.
fn round_frames(group: Group) -> u64
    ensures { (result ≡ sum_of group.frames) × (result ≤ 1020) }
{
    let mut sum = 0;
    for frames in group.frames {
        sum += frames as u64;
    }
    sum
}

// The waveform ends here: the group runs no time, or has no frame.
#[tactic(auto, unfolding(crate::specs::Tables::ends))]
fn ends_table(group: Group) -> bool
    ensures { result ≡ ends group }
{
    group.repeats == 0 || round_frames(group) == 0
}

// How many groups of a table run.
fn running_groups(table: [Group; GROUPS]) -> usize
    ensures { result ≡ length (running table) }
{
    for k in 0..GROUPS {
        if ends_table(table[k]) {
            return k;
        }
    }
    GROUPS
}

// The frames of a group, all its rounds together.
fn group_frames(group: Group) -> u64
    ensures { (result ≡ group.repeats * sum_of group.frames) × (result ≤ 260100) }
{
    group.repeats as u64 * round_frames(group)
}

// The frames of a table, up to its end.
fn table_frames(table: [Group; GROUPS]) -> u64
    ensures { (result ≡ table_frame_count table) × (result ≤ 1820700) }
{
    let mut sum = 0;
    for group in table {
        if ends_table(group) {
            return sum;
        }
        sum += group_frames(group);
    }
    sum
}

// A level or a voltage in millivolts, above zero or below; one of the two is 0.
#[derive(Clone, Copy)]
struct Volts {
    above: u16,
    below: u16,
}

#[tactic(auto, unfolding(crate::specs::Levels::level_of_code))]
fn level_of(levels: Levels, code: u8) -> Volts
    ensures { result ≡ Parts (level_of_code levels code) }
{
    match code % 4 {
        1 => Volts {
            above: levels.vdh,
            below: 0,
        },
        2 => Volts {
            above: 0,
            below: levels.vdl,
        },
        3 => Volts {
            above: levels.vdhr,
            below: 0,
        },
        _ => Volts { above: 0, below: 0 },
    }
}

// What every frame of a refresh has in common.
#[derive(Clone, Copy)]
struct Supply {
    levels: Levels,
    frame_ns: u64,
    positive_drives_black: bool,
}

// The drive of one frame, up or down, held to 64 bits; one of the two is 0.
#[derive(Clone, Copy)]
struct Drive {
    up: u64,
    down: u64,
}

// above - below millivolts for a frame.
fn energy(above: u64, below: u64, period: u64) -> u64
    ensures { result ≡ min ((above - below) * period) top }
{
    above.saturating_sub(below).saturating_mul(period)
}

fn frame_drive(supply: Supply, source: u8, vcom: u8) -> Drive
    ensures { result ≡ Drives (drive_of supply.levels supply.frame_ns supply.positive_drives_black source vcom) }
{
    if vcom % 4 == 3 {
        return Drive { up: 0, down: 0 };
    }
    let levels = supply.levels;
    let s = level_of(levels, source);
    let v = level_of(levels, vcom);
    let above = (s.above as u64) + (v.below as u64);
    let below = (s.below as u64) + (v.above as u64);
    let rise = energy(above, below, supply.frame_ns);
    let fall = energy(below, above, supply.frame_ns);
    if supply.positive_drives_black {
        Drive {
            up: fall,
            down: rise,
        }
    } else {
        Drive {
            up: rise,
            down: fall,
        }
    }
}

// A run so far, and the frames that are left to drive.
#[derive(Clone, Copy)]
struct Progress {
    run: Transfer,
    left: u64,
}

// A phase: n frames of one drive, or what is left.
fn drive_phase(p: Progress, n: u64, drive: Drive, swing: u64) -> Progress
    ensures { (z : ℤ) → drive ≡ Drives z → Extends swing p result (replicate n z) }
{
    let k = n.min(p.left);
    let up = k.saturating_mul(drive.up);
    let down = k.saturating_mul(drive.down);
    Progress {
        run: p.run.then(Transfer::shift(up, down, swing)),
        left: p.left - k,
    }
}

// The four phases in turn.
fn drive_round(
    p: Progress,
    group: Group,
    vcom: [u8; PHASES],
    supply: Supply,
    swing: u64,
) -> Progress
    ensures { Extends swing p result (round_frames supply.levels supply.frame_ns supply.positive_drives_black group vcom) }
{
    let mut q = p;
    for i in 0..PHASES {
        let drive = frame_drive(supply, group.codes[i], vcom[i]);
        q = drive_phase(q, group.frames[i] as u64, drive, swing);
    }
    q
}

// The round, as often as the group's repeats say.
fn drive_group(
    p: Progress,
    group: Group,
    vcom: [u8; PHASES],
    supply: Supply,
    swing: u64,
) -> Progress
    ensures { Extends swing p result (group_frames supply.levels supply.frame_ns supply.positive_drives_black group vcom) }
{
    let mut q = p;
    for i in 0..group.repeats {
        q = drive_round(q, group, vcom, supply, swing);
    }
    q
}

// VCOM's codes in a group, of whose groups `running` run: 0 once its table has ended.
fn vcom_codes(vcom: [Group; GROUPS], runs: usize, group: usize) -> [u8; PHASES]
    requires { runs ≡ length (running vcom) }
    ensures { result ≡ vcom_codes vcom group }
{
    if group < runs {
        vcom[group].codes
    } else {
        [0; PHASES]
    }
}

// The first frames of a table, group by group.
fn drive_table(
    table: [Group; GROUPS],
    vcom: [Group; GROUPS],
    supply: Supply,
    swing: u64,
    n: u64,
) -> Transfer
    ensures { Acts swing result (take n (frames_under supply table vcom)) }
{
    let runs = running_groups(table);
    let vcom_runs = running_groups(vcom);
    let mut q = Progress {
        run: Transfer::identity(swing),
        left: n,
    };
    for k in 0..runs {
        q = drive_group(q, table[k], vcom_codes(vcom, vcom_runs, k), supply, swing);
    }
    q.run
}

// A place in a table's sequence of codes, one a frame: in a phase of one of a group's rounds.
#[derive(Clone, Copy)]
struct Place {
    group: usize,
    // Rounds of the group after this one.
    rounds: u8,
    phase: usize,
    // The phase's code, and how many of its frames are to come: 0 and none once the table has ended.
    code: u8,
    left: u64,
}

impl Place {
    fn at(table: [Group; GROUPS], group: usize, rounds: u8, phase: usize) -> Place
        requires { (group < length (running table)) × (phase < 4) }
        ensures { result ≡ place_at table group rounds phase }
    {
        let g = table[group];
        Place {
            group,
            rounds,
            phase,
            code: g.codes[phase],
            left: g.frames[phase] as u64,
        }
    }

    // The first phase of a group, or the table's end.
    #[tactic(auto, unfolding(crate::specs::InnerPlaces::start_at))]
    fn start(table: [Group; GROUPS], runs: usize, group: usize) -> Place
        requires { runs ≡ length (running table) }
        ensures { result ≡ start_at table group }
    {
        if group < runs {
            return Place::at(table, group, table[group].repeats - 1, 0);
        }
        Place {
            group,
            rounds: 0,
            phase: PHASES,
            code: 0,
            left: 0,
        }
    }

    // The phase after this one.
    #[tactic(auto, unfolding(crate::specs::InnerPlaces::next_place))]
    fn next(self, table: [Group; GROUPS], runs: usize) -> Place
        requires { (runs ≡ length (running table)) × (self.group < runs) }
        ensures { result ≡ next_place table self }
    {
        if self.phase < LAST_PHASE {
            return Place::at(table, self.group, self.rounds, self.phase + 1);
        }
        if 0 < self.rounds {
            return Place::at(table, self.group, self.rounds - 1, 0);
        }
        Place::start(table, runs, self.group + 1)
    }

    // Past phases that have no frame to come.
    fn settled(self, table: [Group; GROUPS], runs: usize) -> Place
        requires { (runs ≡ length (running table)) × Placed table self }
        ensures { Stands table result (codes_from table self) }
    {
        let mut p = self;
        while p.left == 0 {
            if runs <= p.group {
                return p;
            }
            p = p.next(table, runs);
        }
        p
    }

    // Before a table's first frame.
    fn first(table: [Group; GROUPS], runs: usize) -> Place
        requires { runs ≡ length (running table) }
        ensures { Stands table result (codes_of table) }
    {
        Place::start(table, runs, 0).settled(table, runs)
    }

    // After n more frames, or what is left of the phase.
    fn after(self, table: [Group; GROUPS], runs: usize, n: u64) -> Place
        requires { (runs ≡ length (running table)) × Placed table self }
        ensures { Stands table result (drop (min n self.left) (codes_from table self)) }
    {
        let mut p = self;
        p.left = self.left.saturating_sub(n);
        p.settled(table, runs)
    }
}

// The frames over which neither the pixel's code changes nor VCOM's, which may have ended.
#[tactic(auto, unfolding(crate::specs::InnerPlaces::common_run))]
fn common_run(pixel: Place, vcom: Place) -> u64
    ensures { result ≡ common_run pixel vcom }
{
    if vcom.left == 0 {
        pixel.left
    } else {
        pixel.left.min(vcom.left)
    }
}

// The first frames of a table, each beside VCOM's frame of the same number.
fn drive_beside(
    table: [Group; GROUPS],
    vcom: [Group; GROUPS],
    supply: Supply,
    swing: u64,
    n: u64,
) -> Transfer
    ensures { Acts swing result (take n (beside_under supply table vcom)) }
{
    let runs = running_groups(table);
    let vcom_runs = running_groups(vcom);
    let mut q = Progress {
        run: Transfer::identity(swing),
        left: n,
    };
    let mut p = Place::first(table, runs);
    let mut v = Place::first(vcom, vcom_runs);
    while 0 < q.left {
        if p.left == 0 {
            return q.run;
        }
        let k = common_run(p, v);
        q = drive_phase(q, k, frame_drive(supply, p.code, v.code), swing);
        p = p.after(table, runs, k);
        v = v.after(vcom, vcom_runs, k);
    }
    q.run
}

// The whole frames that some nanoseconds hold, rounded down. A period of 0, which no panel has, holds
// no frame.
pub fn whole_frames(ns: u64, period: u64) -> u64
    ensures { result ≡ ns / period }
{
    if period == 0 { 0 } else { ns / period }
}

impl Waveform {
    // The LUT registers decoded, for a refresh at these levels and this frame period, by this rule.
    pub fn new(
        luts: [[u8; LUT_BYTES]; LUTS],
        levels: Levels,
        frame_ns: u64,
        vcom_by_frame: bool,
    ) -> Waveform
        ensures { result ≡ waveform_of luts levels frame_ns vcom_by_frame }
    {
        Waveform {
            tables: decode(luts),
            levels,
            frame_ns,
            vcom_by_frame,
        }
    }

    // The frames of the refresh: those of the longest of the five LUTs, then two of VCOM_DC.
    pub fn frames(self) -> u64
        ensures { result ≡ refresh_frames self }
    {
        let mut frames = 0;
        for table in self.tables {
            frames = table_frames(table).max(frames);
        }
        frames + TAIL_FRAMES
    }

    // How long the refresh drives the glass.
    pub fn duration_ns(self) -> u64
        ensures { result ≡ duration_of self }
    {
        self.frames().saturating_mul(self.frame_ns)
    }

    // What table `lut` does to a state of 0 ..= swing over the first n frames of the refresh.
    pub fn transfer_first(
        self,
        lut: usize,
        swing: u64,
        positive_drives_black: bool,
        n: u64,
    ) -> Transfer
        ensures { Acts swing result (take n (frames_of self positive_drives_black lut)) }
    {
        if LUTS <= lut {
            return Transfer::identity(swing);
        }
        let supply = Supply {
            levels: self.levels,
            frame_ns: self.frame_ns,
            positive_drives_black,
        };
        let table = self.tables[lut];
        let vcom = self.tables[0];
        if self.vcom_by_frame {
            drive_beside(table, vcom, supply, swing, n)
        } else {
            drive_table(table, vcom, supply, swing, n)
        }
    }

    // What table `lut` does to a state of 0 ..= swing over the whole refresh.
    pub fn transfer(self, lut: usize, swing: u64, positive_drives_black: bool) -> Transfer
        ensures { Acts swing result (frames_of self positive_drives_black lut) }
    {
        if LUTS <= lut {
            return Transfer::identity(swing);
        }
        let n = table_frames(self.tables[lut]);
        self.transfer_first(lut, swing, positive_drives_black, n)
    }
}
