// The attribute byte of a property, and the slot that says where its value is stored.
#![tactic(auto)]

ghost use Rattle.std.specs.Prelude.{◌≡◌, ◌+◌, ◌<◌, ◌^◌, T};
ghost use Rattle.slot.specs.Attributes.{
  present,
  accessor,
  width,
  same_width,
  cacheable,
  merged,
  not_cacheable_if_prototype,
};
ghost use Rattle.slot.specs.Slots.{one_bit, slot_of, next_index};

// Counts storage places. It and a position are two types, so that no sum and no test takes one for the other.
#[derive(Clone, Copy, Default)]
pub struct SlotIndex(pub u32);

impl SlotIndex {
    // The storage place past a value of that width.
    pub fn after(self, width: u32) -> SlotIndex
        requires { self.0 + width < 2 ^ 32 }
        ensures { result.0 ≡ self.0 + width }
    {
        SlotIndex(self.0 + width)
    }
}

// Counts keys.
#[derive(Clone, Copy)]
pub struct KeyPosition(pub u32);

#[derive(Clone, Copy, Default)]
pub struct SlotAttributes(pub u8);

impl SlotAttributes {
    pub const WRITABLE: SlotAttributes = SlotAttributes(1);

    pub const ENUMERABLE: SlotAttributes = SlotAttributes(2);

    pub const CONFIGURABLE: SlotAttributes = SlotAttributes(4);

    pub const GET: SlotAttributes = SlotAttributes(8);

    pub const SET: SlotAttributes = SlotAttributes(16);

    // What a lookup notes for a cache. A stored value has none of these.
    pub const PROTOTYPE: SlotAttributes = SlotAttributes(32);

    pub const FOUND: SlotAttributes = SlotAttributes(64);

    pub const NOT_CACHEABLE: SlotAttributes = SlotAttributes(128);

    pub const INLINE_CACHE_BITS: SlotAttributes = SlotAttributes(224);

    // "A stored value is 0 to 31, any mixture." A stored word is wider than a byte.
    pub const MOST_STORED: u32 = 31;

    pub const STORED_VALUES: u32 = SlotAttributes::MOST_STORED + 1;

    // One bit only: of a mask of several, "all of them" and "some of them" would be two answers.
    fn contains(self, bit: SlotAttributes) -> bool
        requires { T (one_bit 8 bit.0) }
        ensures { result ≡ present bit.0 self.0 }
    {
        self.0 & bit.0 != 0
    }

    pub fn is_writable(self) -> bool
        ensures { result ≡ present 1 self.0 }
    {
        self.contains(SlotAttributes::WRITABLE)
    }

    pub fn is_enumerable(self) -> bool
        ensures { result ≡ present 2 self.0 }
    {
        self.contains(SlotAttributes::ENUMERABLE)
    }

    pub fn is_configurable(self) -> bool
        ensures { result ≡ present 4 self.0 }
    {
        self.contains(SlotAttributes::CONFIGURABLE)
    }

    pub fn has_get(self) -> bool
        ensures { result ≡ present 8 self.0 }
    {
        self.contains(SlotAttributes::GET)
    }

    pub fn has_set(self) -> bool
        ensures { result ≡ present 16 self.0 }
    {
        self.contains(SlotAttributes::SET)
    }

    #[tactic(auto, unfolding(crate::specs::Attributes::accessor))]
    pub fn is_accessor_descriptor(self) -> bool
        ensures { result ≡ accessor self.0 }
    {
        self.contains(SlotAttributes::GET) || self.contains(SlotAttributes::SET)
    }

    // An accessor has two functions to store, where a data property has one value.
    #[tactic(auto, unfolding(crate::specs::Attributes::width))]
    pub fn width(self) -> u32
        ensures { result ≡ width self.0 }
    {
        if self.is_accessor_descriptor() { 2 } else { 1 }
    }

    // Attributes of the same width can take each other's place in storage, and no later slot moves.
    pub fn width_match(self, other: SlotAttributes) -> bool
        ensures { result ≡ same_width self.0 other.0 }
    {
        self.width() == other.width()
    }

    pub fn is_cacheable(self) -> bool
        ensures { result ≡ cacheable self.0 }
    {
        self.contains(SlotAttributes::FOUND) && !self.contains(SlotAttributes::NOT_CACHEABLE)
    }

    // What a lookup notes that has found `slot`: the cache bits noted on the way to it stay.
    pub fn merge(self, slot: SlotAttributes) -> SlotAttributes
        ensures { result.0 ≡ merged self.0 slot.0 }
    {
        SlotAttributes(
            self.0 & SlotAttributes::INLINE_CACHE_BITS.0 | slot.0 | SlotAttributes::FOUND.0,
        )
    }

    // A cache reaches from an object to its prototype, and no further up the chain.
    #[tactic(auto, unfolding(crate::specs::Attributes::not_cacheable_if_prototype))]
    pub fn set_not_cacheable_if_already_prototype(self) -> SlotAttributes
        ensures { result.0 ≡ not_cacheable_if_prototype self.0 }
    {
        if self.contains(SlotAttributes::PROTOTYPE) {
            SlotAttributes(self.0 | SlotAttributes::NOT_CACHEABLE.0)
        } else {
            self
        }
    }
}

// Where a property's value is stored, and its attributes.
#[derive(Clone, Copy, Default)]
pub struct Slot {
    pub index: SlotIndex,
    pub attributes: SlotAttributes,
}

impl Slot {
    pub fn new() -> Slot
        ensures { result ≡ slot_of 0 0 }
    {
        Slot::default()
    }

    pub fn width(self) -> u32
        ensures { result ≡ width self.attributes.0 }
    {
        self.attributes.width()
    }

    pub fn is_cacheable(self) -> bool
        ensures { result ≡ cacheable self.attributes.0 }
    {
        self.attributes.is_cacheable()
    }

    // Slots differ in width, so that the next index depends on the slot before it. It has to fit, and no more is asked.
    pub fn from_previous(previous: Option<Slot>, attributes: SlotAttributes) -> Slot
        requires { next_index previous < 2 ^ 32 }
        ensures { result ≡ slot_of (next_index previous) attributes.0 }
    {
        let Some(before) = previous else {
            return Slot {
                index: SlotIndex(0),
                attributes,
            };
        };
        Slot {
            index: before.index.after(before.width()),
            attributes,
        }
    }

    pub fn set_not_cacheable_if_already_prototype(self) -> Slot
        ensures { result ≡ slot_of self.index.0 (not_cacheable_if_prototype self.attributes.0) }
    {
        Slot {
            index: self.index,
            attributes: self.attributes.set_not_cacheable_if_already_prototype(),
        }
    }
}
